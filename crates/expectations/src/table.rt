//! The table of all expectations.
ghost use Rattle.std.specs.Prelude.{◌≡◌, OnOk, OnErr, string_bytes, map as list_map};
ghost use Rattle.std.specs.FinMap as map;
ghost use Rattle.spec_client_go.specs.Expectations.{creations_expected, deletions_expected, created, deleted, satisfied, forgotten};
ghost use Rattle.object_keys.specs.Keys.{key_of};
ghost use Rattle.std.specs.Prelude.{IfOk};
ghost use Rattle.std.specs.FinSet as set;
ghost use Rattle.expectations.specs.Aged.{AreAgedOut};
ghost use Rattle.expectations.specs.Seen.{expectation_of, uid_cmp};
ghost use Rattle.object_keys.specs.Seen.{seen_set};
ghost use Rattle.object_keys.specs.WorkKeys.{work_key_of};

use crate::expectation::Expectation;
use crate::owners;
use object_keys::{Key, WorkKey};
use spec_client_go::controller::Controller;
use std::alloc::{AllocError, Global};
use std::collections::{BTreeMap, BTreeSet};
use std::marker::Model;

/// For each ReplicaSet, by key and uid, what it has asked for and not yet seen. Moments are in milliseconds.
#[derive(Drop)]
pub struct Table {
    by_key: BTreeMap<Key, BTreeMap<String, Expectation>>,
    alloc: Global,
}

impl Model for Table {
    ghost use Rattle.spec_client_go.specs.Expectations as spec;
    ghost use Rattle.expectations.specs.Seen.{flat, nested_of, table_code};

    ghost Value = { spec.Table };

    ghost coded = { table_code };

    ghost view = { λ t. flat (nested_of t.by_key.entries) };
}

impl Table {
    /// Returns a table in which nothing is expected.
    pub fn new(alloc: Global) -> Table
        ensures { result ≡ map.empty }
    {
        Table {
            by_key: BTreeMap::new(alloc),
            alloc,
        }
    }

    /// Sets that a ReplicaSet waits for so many pods to be seen created, from `now` on, and for nothing else. The error is
    /// running out of memory, and then nothing has changed.
    pub fn expect_creations(
        &mut self,
        key: &Key,
        uid: &str,
        creations: u32,
        now: u64,
    ) -> Result<(), AllocError>
        ensures ok { OnOk result (self.new ≡ creations_expected (record { key = key_of key.now; uid = uid.now }) creations now self.old) }
        ensures err { OnErr result (self.new ≡ self.old) }
    {
        let expectation = Expectation {
            creations,
            deletions: BTreeSet::new(self.alloc),
            since: now,
        };
        self.expect(key, uid, expectation)
    }

    /// Sets that a ReplicaSet waits for the pods of these uids to be seen deleted, from `now` on, and for nothing else. The
    /// error is running out of memory, and then nothing has changed.
    pub fn expect_deletions(
        &mut self,
        key: &Key,
        uid: &str,
        pods: Vec<String>,
        now: u64,
    ) -> Result<(), AllocError>
        ensures ok { OnOk result (self.new ≡ deletions_expected (record { key = key_of key.now; uid = uid.now }) (list_map string_bytes pods.items) now self.old) }
        ensures err { OnErr result (self.new ≡ self.old) }
    {
        let expectation = Expectation {
            creations: 0,
            deletions: set_of(self.alloc, pods)?,
            since: now,
        };
        self.expect(key, uid, expectation)
    }

    /// Sets what a ReplicaSet waits for.
    fn expect(&mut self, key: &Key, uid: &str, expectation: Expectation) -> Result<(), AllocError>
        ensures ok { OnOk result (self.new ≡ map.insert self.old (record { key = key_of key.now; uid = uid.now }) (expectation_of expectation)) }
        ensures err { OnErr result (self.new ≡ self.old) }
    {
        let uid = String::from_str(self.alloc, uid)?;
        if let Some(owners) = self.by_key.get_mut(key) {
            return owners::expect(owners, uid, expectation);
        }
        let mut owners = BTreeMap::new(self.alloc);
        owners::expect(&mut owners, uid, expectation)?;
        self.by_key.insert(key.try_copy()?, owners)?;
        Ok(())
    }

    /// Counts that a pod of a ReplicaSet was seen created.
    pub fn created(&mut self, key: &Key, uid: &str)
        ensures { self.new ≡ created (record { key = key_of key.now; uid = uid.now }) self.old }
    {
        if let Some(owners) = self.by_key.get_mut(key) {
            owners::see_created(owners, uid);
        }
    }

    /// Counts that the create of a pod was refused, or not sent: it is waited for no longer.
    pub fn create_failed(&mut self, key: &Key, uid: &str)
        ensures { self.new ≡ created (record { key = key_of key.now; uid = uid.now }) self.old }
    {
        self.created(key, uid);
    }

    /// Notes that a pod of a ReplicaSet was seen deleted, or that its delete was refused or not sent.
    pub fn deleted(&mut self, key: &Key, uid: &str, pod: &str)
        ensures { self.new ≡ deleted (record { key = key_of key.now; uid = uid.now }) pod.now self.old }
    {
        if let Some(owners) = self.by_key.get_mut(key) {
            owners::see_deleted(owners, uid, pod);
        }
    }

    /// Returns whether a ReplicaSet waits for nothing: nothing was set, nothing is left, or more than five minutes have passed.
    pub fn satisfied(&self, key: &Key, uid: &str, now: u64) -> bool
        ensures { result ≡ satisfied (record { key = key_of key.now; uid = uid.now }) now self.now }
    {
        match self.by_key.get(key) {
            Some(owners) => owners::is_satisfied(owners, uid, now),
            None => true,
        }
    }

    /// Returns the keys of the ReplicaSets that waited for something at the moment `before`, and by its age no longer do `now`: each
    /// once, in order. The error is running out of memory.
    pub fn aged_out(&self, before: u64, now: u64) -> Result<Vec<WorkKey>, AllocError>
        ensures { IfOk result (λ ks. AreAgedOut before now self.now (list_map work_key_of ks.items)) }
    {
        let mut keys = Vec::new(self.alloc);
        for (key, owners) in &self.by_key {
            if owners::any_ages_out(owners, before, now) {
                keys.push(WorkKey {
                    controller: Controller::ReplicaSet,
                    key: key.try_copy()?,
                })?;
            }
        }
        Ok(keys)
    }

    /// Removes what every ReplicaSet of this key waits for, whatever its uid.
    pub fn forget(&mut self, key: &Key)
        ensures { self.new ≡ forgotten (key_of key.now) self.old }
    {
        self.by_key.remove(key);
    }
}

/// Returns the set of some texts.
fn set_of(alloc: Global, texts: Vec<String>) -> Result<BTreeSet<String>, AllocError>
    ensures { IfOk result (λ s. seen_set uid_cmp string_bytes s.keys ≡ set.from_list (list_map string_bytes texts.items)) }
{
    let mut set = BTreeSet::new(alloc);
    for text in texts {
        set.insert(text)?;
    }
    Ok(set)
}

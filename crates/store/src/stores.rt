//! All that is there, with one revision over all kinds: how it is written, found and listed.
use crate::limits::MOST_OBJECTS;
use crate::objects::take;
use crate::past_snapshots::PastSnapshot;
use crate::ranges::asked;
use crate::snapshots::ViewSnapshot;
use meta::lent_members::Member;
use meta::stored::StoredObject;
use meta::writes::Write;
use metadata_values::GREATEST_REVISION;
use object_keys::{Fault, Key};
use selector::View;
use shared_map::SharedMap;
use std::alloc::{AllocError, Global};
use std::collections::HashMap;
use std::marker::Model;

/// All that is there, with one revision over all kinds: 1 for the empty store, and one more after each write.
/// It is seen as a snapshot.
#[derive(Drop)]
pub struct Store {
    /// In the order of their keys, for lists.
    objects: SharedMap<Key, StoredObject>,
    /// The same objects, for one under its key: it is found without the way through the order.
    index: HashMap<Key, StoredObject>,
    revision: u64,
}

impl Model for Store {
    ghost use Rattle.spec_server.specs.Snapshots.{Snapshot};
    ghost use Rattle.spec_server.specs.Codes.{coded_snapshot};

    ghost Value = { Snapshot };

    ghost coded = { coded_snapshot };

    ghost use Rattle.store.specs.Seen.{members_seen, IsKept};

    ghost view = { λ s. record { members = members_seen s.objects; revision = s.revision } };

    ghost invariant = { λ s. IsKept s.objects s.index s.revision };
}

impl Store {
    ghost use Rattle.std.specs.Prelude.{◌≡◌, ◌≤◌, ◌⊎◌, true, false, IfOk, OnOk, OnErr, IfErr, length, map, option_map};
    ghost use Rattle.object_keys.specs.Keys.{key_of};
    ghost use Rattle.meta.specs.Members.{member_of};
    ghost use Rattle.meta.specs.Writes.{write_of};
    ghost use Rattle.object_keys.specs.declared.fault.Fault.TheVariants as fault;
    ghost use Rattle.selector.specs.Views.{view_of};
    ghost use Rattle.spec_api.specs.History.{found, viewed};
    ghost use Rattle.spec_api.specs.Revisions.{greatest_revision};
    ghost use Rattle.spec_server.specs.Snapshots.{empty, written};
    ghost use Rattle.spec_api.specs.Verbs.{most_objects, overflows};

    /// Returns the empty store, at revision 1.
    pub fn new(alloc: Global) -> Store
        ensures { result ≡ empty }
    {
        Store {
            objects: SharedMap::new(alloc),
            index: HashMap::new(alloc),
            revision: 1,
        }
    }

    /// Returns the present revision. It takes no memory.
    pub fn revision(&self) -> u64
        ensures value { result ≡ self.now.revision }
        ensures bound { result ≤ greatest_revision }
    {
        self.revision
    }

    /// Returns how many objects there are.
    pub fn len(&self) -> usize
        ensures value { result ≡ length self.now.members }
        ensures bound { result ≤ most_objects }
    {
        self.objects.len()
    }

    /// Returns the object under a key. It takes no memory.
    pub fn get(&self, key: &Key) -> Option<&StoredObject>
        ensures { option_map (λ o. o.now.value) result ≡ found (key_of key.now) self.now.members }
    {
        self.index.get(key)
    }

    /// Returns whether a write makes more objects than there may be, or has a revision past the greatest. The key is looked up
    /// only where there are as many as there may be.
    fn overflows(&self, write: &Write) -> bool
        ensures { result ≡ overflows self.now.members self.now.revision (write_of write.now) }
    {
        self.len() >= MOST_OBJECTS && write.put.is_some() && self.get(&write.key).is_none()
            || self.revision() >= GREATEST_REVISION
    }

    /// Applies one write, which has the next revision, and returns the object that was under its key. An error changes
    /// nothing: storage is full for just the writes that overflow it, and memory can run out.
    pub fn apply(&mut self, write: Write) -> Result<Option<StoredObject>, Fault>
        ensures ok { OnOk result (self.new ≡ written self.old (write_of write)) }
        ensures before { IfOk result (λ before. option_map (λ o. o.value) before
            ≡ found (key_of write.key) self.old.members) }
        ensures room { OnOk result (overflows self.old.members self.old.revision (write_of write) ≡ false) }
        ensures refused { IfErr result (λ e.
            ((e ≡ fault.NoMemory) × (overflows self.old.members self.old.revision (write_of write) ≡ false))
            ⊎ ((e ≡ fault.StorageFull) × (overflows self.old.members self.old.revision (write_of write) ≡ true))) }
        ensures err { OnErr result (self.new ≡ self.old) }
    {
        if self.overflows(&write) {
            return Err(Fault::StorageFull);
        }
        let before = take(&mut self.objects, &mut self.index, write)?;
        self.revision += 1;
        Ok(before)
    }

    /// Returns the objects of a view with their keys, in the order of their keys. The error is running out of memory.
    pub fn list<'a>(&'a self, alloc: Global, view: &View) -> Result<Vec<Member<'a>>, AllocError>
        ensures { IfOk result (λ found. map member_of found.items
            ≡ viewed (view_of view.entry.now) self.entry.now.members) }
    {
        let mut found = Vec::new(alloc);
        let mut range = asked(alloc, &self.objects, view, None)?;
        while let Some((key, object)) = range.take_next() {
            if view.contains(key, object) {
                found.push(Member { key, object })?;
            }
        }
        Ok(found)
    }

    /// Returns what a view shows, to be looked at later, whatever is written meanwhile. It costs a count for each few objects that there are.
    /// The error is running out of memory.
    pub fn snapshot(&self, alloc: Global, view: &View) -> Result<ViewSnapshot, AllocError>
        ensures { IfOk result (λ s. s ≡ viewed (view_of view.now) self.now.members) }
    {
        ViewSnapshot::of(alloc, &self.objects, view)
    }

    /// Returns what a view shows, into which what was there earlier can be put back, whatever is written meanwhile. It costs a count for each
    /// few objects that there are. The error is running out of memory.
    pub fn past_snapshot(&self, alloc: Global, view: &View) -> Result<PastSnapshot, AllocError>
        ensures { IfOk result (λ s. s ≡ record {
          view = view_of view.now;
          members = viewed (view_of view.now) self.now.members;
        }) }
    {
        PastSnapshot::of(alloc, &self.objects, view)
    }
}

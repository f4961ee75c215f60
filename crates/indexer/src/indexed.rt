//! An indexed copy.
use crate::objects::ObjectMap;
use crate::shifts::{Shift, shifts_between, shifts_of};
use meta::Object;
use object_keys::Key;
use reconcile_types::Entry;
use reflector::Delta;
use reflector::identities::revision_of;
use std::alloc::{AllocError, Global};
use std::marker::Model;

/// The objects that deltas made to be there, in the order of their keys, with the revision that the last delta named.
/// It is seen as a snapshot.
pub struct Indexed {
    objects: ObjectMap,
    revision: u64,
    alloc: Global,
}

impl Drop for Indexed {
    // Called where one is dropped; a derived drop is proved anew at each such place.
    fn drop(self) {
        let Indexed {
            objects: _objects,
            revision: _revision,
            alloc: _alloc,
        } = self;
    }
}

impl Model for Indexed {
    ghost use Rattle.spec_server.specs.Snapshots.{Snapshot};
    ghost use Rattle.spec_server.specs.Codes.{coded_snapshot};

    ghost Value = { Snapshot };

    ghost coded = { coded_snapshot };

    ghost view = { λ i. record { members = i.objects; revision = i.revision } };
}

impl Indexed {
    ghost use Rattle.std.specs.Prelude.{◌≡◌, IfOk, OnOk, OnErr, length, map, option_map};
    ghost use Rattle.std.specs.List.Sorted.{IsStrictlySortedBy};
    ghost use Rattle.std.specs.Map.{keys_of};
    ghost use Rattle.object_keys.specs.Keys.{key_of};
    ghost use Rattle.spec_api.specs.History.{found};
    ghost use Rattle.spec_api.specs.Keys.{key_cmp};
    ghost use Rattle.reflector.specs.Deltas.{delta_of};
    ghost use Rattle.spec_client_go.specs.Informers.{nothing, of_namespace, of_owner, applied};
    ghost use Rattle.spec_client_go.specs.Shifts.{shifts_of};
    ghost use Rattle.reconcile_types.specs.Entries.{entry_of};
    ghost use Rattle.indexer.specs.Shifted.{shift_of};

    /// Returns the copy before the first list: nothing is there, at revision 0.
    pub fn new(alloc: Global) -> Indexed
        ensures { result ≡ nothing }
    {
        Indexed {
            objects: ObjectMap::new(alloc),
            revision: 0,
            alloc,
        }
    }

    /// Returns how many objects there are. It takes no memory.
    pub fn len(&self) -> usize
        ensures { result ≡ length self.now.members }
    {
        self.objects.len()
    }

    /// Returns the revision that the last delta named; 0 before the first. It takes no memory.
    pub fn revision(&self) -> u64
        ensures { result ≡ self.now.revision }
    {
        self.revision
    }

    /// Returns a copy, which shares the objects. The error is running out of memory.
    pub fn try_copy(&self) -> Result<Indexed, AllocError>
        ensures { IfOk result (λ i. i ≡ self.now) }
    {
        Ok(Indexed {
            objects: self.objects.try_copy()?,
            revision: self.revision,
            alloc: self.alloc,
        })
    }

    /// Applies a delta, whose objects are then shared. The error is running out of memory, and changes nothing.
    pub fn apply(&mut self, delta: &Delta) -> Result<(), AllocError>
        ensures ok { OnOk result (self.new ≡ applied self.old (delta_of delta.now)) }
        ensures err { OnErr result (self.new ≡ self.old) }
    {
        match delta {
            Delta::Replace(revision, objects) => {
                self.objects = ObjectMap::of(self.alloc, objects.as_slice())?;
                self.revision = *revision;
            }
            Delta::Put(object) => {
                self.objects.put(object)?;
                self.revision = revision_of(object.object()).unwrap_or(self.revision);
            }
            Delta::Remove(revision, key) => {
                self.objects.remove(key)?;
                self.revision = *revision;
            }
            Delta::Mark(revision) => self.revision = *revision,
        }
        Ok(())
    }

    /// Applies a delta, whose objects are then shared, and returns what it changes: one shift for an object that is put or
    /// removed, and for a list one for each key whose object differs, in the order of keys. The error is running out of memory,
    /// and changes nothing.
    pub fn apply_with_shifts(
        &mut self,
        alloc: Global,
        delta: &Delta,
    ) -> Result<Vec<Shift>, AllocError>
        ensures ok { OnOk result (self.new ≡ applied self.old (delta_of delta.now)) }
        ensures shifts { IfOk result (λ v. map shift_of v.items ≡ shifts_of self.old.members (delta_of delta.now)) }
        ensures err { OnErr result (self.new ≡ self.old) }
    {
        match delta {
            Delta::Replace(revision, listed) => {
                let new = ObjectMap::of(self.alloc, listed.as_slice())?;
                let shifts = shifts_between(alloc, &self.objects, &new)?;
                self.objects = new;
                self.revision = *revision;
                Ok(shifts)
            }
            _ => {
                let shifts = self.shifts_of(alloc, delta)?;
                self.apply(delta)?;
                Ok(shifts)
            }
        }
    }

    /// Returns what a delta would change: one shift for an object that is put or removed, and for a list one for each key
    /// whose object differs, in the order of keys. The error is running out of memory.
    pub fn shifts_of(&self, alloc: Global, delta: &Delta) -> Result<Vec<Shift>, AllocError>
        ensures { IfOk result (λ v. map shift_of v.items ≡ shifts_of self.now.members (delta_of delta.now)) }
    {
        shifts_of(alloc, &self.objects, delta)
    }

    /// Returns the object under a key. It takes no memory.
    pub fn get(&self, key: &Key) -> Option<&Object>
        ensures { option_map (λ o. o.now.value) result ≡ found (key_of key.now) self.now.members }
    {
        match self.objects.get(key) {
            Some(object) => Some(object.object()),
            None => None,
        }
    }

    /// Returns all objects with their keys, each key once, in the order of keys. The error is running out of memory.
    pub fn list(&self, alloc: Global) -> Result<Vec<Entry<'_>>, AllocError>
        ensures all { IfOk result (λ v. map entry_of v.items ≡ self.now.members) }
        ensures in_order { IsStrictlySortedBy key_cmp (keys_of self.now.members) }
    {
        self.objects.list(alloc)
    }

    /// Returns the objects of a namespace with their keys, in the order of keys. The error is running out of memory.
    pub fn by_namespace(&self, alloc: Global, namespace: &str) -> Result<Vec<Entry<'_>>, AllocError>
        ensures { IfOk result (λ v. map entry_of v.items ≡ of_namespace namespace.now self.now.members) }
    {
        self.objects.by_namespace(alloc, namespace)
    }

    /// Returns the objects with an owner of this uid, with their keys, in the order of keys. It costs what it finds, and the way
    /// to each. The error is running out of memory.
    pub fn by_owner(&self, alloc: Global, uid: &str) -> Result<Vec<Entry<'_>>, AllocError>
        ensures { IfOk result (λ v. map entry_of v.items ≡ of_owner uid.now self.now.members) }
    {
        self.objects.by_owner(alloc, uid)
    }
}

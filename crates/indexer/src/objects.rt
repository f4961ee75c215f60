//! Maps of objects, with an index by owner.
use crate::finding;
use crate::links::OwnerLink;
use crate::putting::{lay_over, put_made, put_under, remove_under};
use object_keys::Key;
use reconcile_types::Entry;
use reflector::SharedObject;
use reflector::identities::key_of;
use shared_map::SharedMap;
use std::alloc::{AllocError, Global};
use std::marker::Model;

/// The objects that are there, in the order of their keys, with an index of those that name an owner. It is seen as members.
#[derive(Drop)]
pub struct ObjectMap {
    objects: SharedMap<Key, SharedObject>,
    links: SharedMap<OwnerLink, ()>,
    alloc: Global,
}

impl Model for ObjectMap {
    ghost use Rattle.spec_api.specs.History.{Entries};
    ghost use Rattle.std.specs.Map.{keys_of};
    ghost use Rattle.spec_server.specs.Codes.{coded_members};
    ghost use Rattle.indexer.specs.Links.{IsIndexOf};
    ghost use Rattle.reflector.specs.Seen.{members_seen};

    ghost Value = { Entries };

    ghost coded = { coded_members };

    ghost view = { λ m. members_seen m.objects };

    ghost invariant = { λ m. IsIndexOf (keys_of m.links) (members_seen m.objects) };
}

impl ObjectMap {
    ghost use Rattle.std.specs.Prelude.{◌≡◌, [], IfOk, OnOk, OnErr, None, length, map, option_map};
    ghost use Rattle.std.specs.List.Sorted.{IsStrictlySortedBy};
    ghost use Rattle.std.specs.Map.{keys_of};
    ghost use Rattle.spec_api.specs.Keys.{key_cmp};
    ghost use Rattle.spec_client_go.specs.Informers.{of_namespace, of_owner};
    ghost use Rattle.spec_client_go.specs.Shifts.{overlaid};
    ghost use Rattle.reflector.specs.Seen.{members_seen};
    ghost use Rattle.reconcile_types.specs.Entries.{entry_of};
    ghost use Rattle.object_keys.specs.Keys.{key_of};
    ghost use Rattle.spec_api.specs.History.{found, put_or_remove};
    ghost use Rattle.spec_client_go.specs.Reflectors.{put_in, put_all};

    /// Returns a map without objects.
    pub fn new(alloc: Global) -> ObjectMap
        ensures { result ≡ [] }
    {
        ObjectMap {
            objects: SharedMap::new(alloc),
            links: SharedMap::new(alloc),
            alloc,
        }
    }

    /// Returns the map of these objects. The error is running out of memory.
    pub fn of(alloc: Global, listed: &[SharedObject]) -> Result<ObjectMap, AllocError>
        ensures { IfOk result (λ m. m ≡ put_all [] listed.now) }
    {
        let mut objects = SharedMap::new(alloc);
        let mut links = SharedMap::new(alloc);
        for object in listed {
            let key = key_of(alloc, object.object())?;
            put_made(alloc, &mut objects, &mut links, key, object)?;
        }
        Ok(ObjectMap {
            objects,
            links,
            alloc,
        })
    }

    /// Returns a copy, which shares the objects and the links. It costs a count for each few of them. The error is running out of
    /// memory.
    pub fn try_copy(&self) -> Result<ObjectMap, AllocError>
        ensures { IfOk result (λ m. m ≡ self.now) }
    {
        Ok(ObjectMap {
            objects: self.objects.try_copy()?,
            links: self.links.try_copy()?,
            alloc: self.alloc,
        })
    }

    /// Returns how many objects there are.
    pub fn len(&self) -> usize
        ensures { result ≡ length self.now }
    {
        self.objects.len()
    }

    /// Puts an object under its key. It costs the way to the key; where the owners that the object names change, also the way to
    /// each, and a count for each few links. The error is running out of memory, and changes nothing.
    pub fn put(&mut self, object: &SharedObject) -> Result<(), AllocError>
        ensures ok { OnOk result (self.new ≡ put_in self.old object.now) }
        ensures err { OnErr result (self.new ≡ self.old) }
    {
        let key = key_of(self.alloc, object.object())?;
        put_under(self.alloc, &mut self.objects, &mut self.links, key, object)
    }

    /// Removes the object under a key, if there is one. The error is running out of memory, and changes nothing.
    pub fn remove(&mut self, key: &Key) -> Result<(), AllocError>
        ensures ok { OnOk result (self.new ≡ put_or_remove self.old (key_of key.now) None) }
        ensures err { OnErr result (self.new ≡ self.old) }
    {
        remove_under(self.alloc, &mut self.objects, &mut self.links, key)
    }

    /// Returns the object under a key. It takes no memory.
    pub fn get(&self, key: &Key) -> Option<&SharedObject>
        ensures { option_map (λ o. o.now.value) result ≡ found (key_of key.now) self.now }
    {
        self.objects.get(key)
    }

    /// Returns all objects with their keys, in the order of keys. The error is running out of memory.
    #[tactic(auto, using(crate::proofs::InOrder::in_order_seen))]
    pub fn list(&self, alloc: Global) -> Result<Vec<Entry<'_>>, AllocError>
        ensures all { IfOk result (λ v. map entry_of v.items ≡ self.now) }
        ensures in_order { IsStrictlySortedBy key_cmp (keys_of self.now) }
    {
        let mut found = Vec::with_capacity(alloc, self.objects.len())?;
        for entry in self.objects.all(alloc)? {
            found.push(Entry {
                key: &entry.0,
                object: entry.1.object(),
            })?;
        }
        Ok(found)
    }

    /// Returns the objects of a namespace with their keys, in the order of keys. The error is running out of memory.
    pub fn by_namespace(&self, alloc: Global, namespace: &str) -> Result<Vec<Entry<'_>>, AllocError>
        ensures { IfOk result (λ v. map entry_of v.items ≡ of_namespace namespace.now self.now) }
    {
        finding::by_namespace(alloc, &self.objects, namespace)
    }

    /// Returns the objects with an owner of this uid, with their keys, in the order of keys. It costs what it finds, and the way
    /// to each. The error is running out of memory.
    pub fn by_owner(&self, alloc: Global, uid: &str) -> Result<Vec<Entry<'_>>, AllocError>
        ensures { IfOk result (λ v. map entry_of v.items ≡ of_owner uid.now self.now) }
    {
        finding::by_owner(alloc, &self.objects, &self.links, uid)
    }

    /// Returns the objects of both maps, the later ones in the place of the earlier. The error is running out of memory.
    pub fn with_later(&self, later: &ObjectMap) -> Result<SharedMap<Key, SharedObject>, AllocError>
        ensures { IfOk result (λ m. members_seen m ≡ overlaid self.now later.now) }
    {
        let mut both = self.objects.try_copy()?;
        lay_over(self.alloc, &mut both, &later.objects)?;
        Ok(both)
    }
}

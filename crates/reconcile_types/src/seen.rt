//! What can be looked at.
ghost use Rattle.std.specs.Prelude.{◌≡◌, IfOk, map, option_map};
ghost use Rattle.std.specs.List.Sorted.{IsStrictlySortedBy};
ghost use Rattle.std.specs.Map.{keys_of};
ghost use Rattle.spec_api.specs.History.{found};
ghost use Rattle.spec_api.specs.Keys.{key_cmp};
ghost use Rattle.spec_server.specs.Snapshots.{Snapshot};
ghost use Rattle.object_keys.specs.Keys.{key_of};
ghost use Rattle.spec_client_go.specs.Informers.{of_namespace, of_owner};
ghost use Rattle.reconcile_types.specs.Entries.{entry_of};

use crate::entries::Entry;
use meta::Object;
use object_keys::Key;
use std::alloc::{AllocError, Global};

/// A map of objects of one kind, with the revision at which they are the server's.
pub trait Seen {
    /// The map with its revision.
    ghost snapshot: { Self → Snapshot };

    /// Returns the object under a key. It takes no memory.
    fn get(&self, key: &Key) -> Option<&Object>
        ensures { option_map (λ o. o.now.value) result ≡ found (key_of key.now) (snapshot self.now).members };

    /// Returns all objects with their keys, each key once, in the order of keys. The error is running out of memory.
    fn list(&self, alloc: Global) -> Result<Vec<Entry<'_>>, AllocError>
        ensures all { IfOk result (λ v. map entry_of v.items ≡ (snapshot self.now).members) }
        ensures in_order { IsStrictlySortedBy key_cmp (keys_of (snapshot self.now).members) };

    /// Returns the objects of a namespace with their keys, in the order of keys. The error is running out of memory.
    fn by_namespace(&self, alloc: Global, namespace: &str) -> Result<Vec<Entry<'_>>, AllocError>
        ensures { IfOk result (λ v. map entry_of v.items ≡ of_namespace namespace.now (snapshot self.now).members) };

    /// Returns the objects with an owner of this uid, with their keys, in the order of keys. The error is running out of
    /// memory.
    fn by_owner(&self, alloc: Global, uid: &str) -> Result<Vec<Entry<'_>>, AllocError>
        ensures { IfOk result (λ v. map entry_of v.items ≡ of_owner uid.now (snapshot self.now).members) };

    /// Returns the revision. It takes no memory.
    fn revision(&self) -> u64
        ensures { result ≡ (snapshot self.now).revision };
}

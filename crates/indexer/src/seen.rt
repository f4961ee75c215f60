//! An indexed copy is looked at.

use crate::indexed::Indexed;
use meta::Object;
use object_keys::Key;
use reconcile_types::{Entry, Seen};
use std::alloc::{AllocError, Global};

impl Seen for Indexed {
    ghost snapshot = { λ i. i };

    fn get(&self, key: &Key) -> Option<&Object> {
        self.get(key)
    }

    fn list(&self, alloc: Global) -> Result<Vec<Entry<'_>>, AllocError> {
        self.list(alloc)
    }

    fn by_namespace(&self, alloc: Global, namespace: &str) -> Result<Vec<Entry<'_>>, AllocError> {
        self.by_namespace(alloc, namespace)
    }

    fn by_owner(&self, alloc: Global, uid: &str) -> Result<Vec<Entry<'_>>, AllocError> {
        self.by_owner(alloc, uid)
    }

    fn revision(&self) -> u64 {
        self.revision()
    }
}

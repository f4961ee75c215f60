//! A look is looked at.

use crate::listers::Look;
use meta::Object;
use object_keys::Key;
use reconcile_types::{Entry, Seen};
use std::alloc::{AllocError, Global};

impl Seen for Look {
    ghost use Rattle.informer.specs.Listers.{shown};

    ghost snapshot = { shown };

    fn get(&self, key: &Key) -> Option<&Object> {
        self.indexed().get(key)
    }

    fn list(&self, alloc: Global) -> Result<Vec<Entry<'_>>, AllocError> {
        self.indexed().list(alloc)
    }

    fn by_namespace(&self, alloc: Global, namespace: &str) -> Result<Vec<Entry<'_>>, AllocError> {
        self.indexed().by_namespace(alloc, namespace)
    }

    fn by_owner(&self, alloc: Global, uid: &str) -> Result<Vec<Entry<'_>>, AllocError> {
        self.indexed().by_owner(alloc, uid)
    }

    fn revision(&self) -> u64 {
        self.indexed().revision()
    }
}

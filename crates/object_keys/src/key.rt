//! Keys of objects.
ghost use Rattle.std.specs.Prelude.{◌≡◌, IfOk};
ghost use Rattle.object_keys.specs.Keys.{key_of};

use spec_api::kinds::Kind;
use std::alloc::AllocError;

/// What one object at a time is called: its kind, its namespace and its name. Keys go by kind, then namespace, then
/// name, the texts in byte order.
#[derive(Debug, PartialEq, Eq, PartialOrd, Ord, Hash)]
pub struct Key {
    pub kind: Kind,
    pub namespace: String,
    pub name: String,
}

impl Drop for Key {
    // Called where one is dropped; a derived drop is proved anew at each such place.
    fn drop(self) {
        let Key {
            kind: _kind,
            namespace: _namespace,
            name: _name,
        } = self;
    }
}

impl Key {
    /// Returns a copy of the key. The error is running out of memory.
    pub fn try_copy(&self) -> Result<Key, AllocError>
        ensures { IfOk result (λ k. key_of k ≡ key_of self.now) }
    {
        Ok(Key {
            kind: self.kind,
            namespace: self.namespace.clone()?,
            name: self.name.clone()?,
        })
    }

    /// Gives up the namespace and the name.
    pub fn into_texts(self) -> (String, String)
        ensures { result ≡ (self.namespace, self.name) }
    {
        let Key {
            kind: _,
            namespace,
            name,
        } = self;
        (namespace, name)
    }
}

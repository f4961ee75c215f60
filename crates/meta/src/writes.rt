//! What a write puts under a key, or removes.

use crate::stored::StoredObject;
use object_keys::Key;

/// A write: an object put under a key, or, with none, the key's object removed.
#[derive(Drop)]
pub struct Write {
    pub key: Key,
    pub put: Option<StoredObject>,
}

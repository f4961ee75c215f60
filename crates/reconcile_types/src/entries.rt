//! References to objects with their keys.

use meta::Object;
use object_keys::Key;

/// A reference to an object, with its key.
#[derive(Clone, Copy)]
pub struct Entry<'a> {
    pub key: &'a Key,
    pub object: &'a Object,
}

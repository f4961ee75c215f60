//! Objects that are there, lent.

use crate::stored::StoredObject;
use object_keys::Key;

/// An object that is there, with its key, lent.
#[derive(Clone, Copy)]
pub struct Member<'a> {
    pub key: &'a Key,
    pub object: &'a StoredObject,
}

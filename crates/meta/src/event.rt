//! What a write did to an object that a view asks for.

use crate::stored::StoredObject;
use object_keys::Key;
use spec_api::frames::ChangeKind;

/// What a write did to an object that a view asks for.
#[derive(Drop)]
pub struct Event {
    pub kind: ChangeKind,
    /// The revision of the write.
    pub revision: u64,
    pub key: Key,
    /// The object after the write; of an object that is gone, the last one, at the revision of the write.
    pub object: StoredObject,
}

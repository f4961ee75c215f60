//! What a write did under its key, as a window records it.
ghost use Rattle.std.specs.Prelude.{◌≡◌, IfOk, option_map};

use meta::StoredObject;
use object_keys::Key;
use std::alloc::AllocError;

/// What a write did under its key: its revision, the object before it and the object after it.
#[derive(Drop)]
pub struct Change {
    /// The revision of the write.
    pub revision: u64,
    pub key: Key,
    /// The object before the write; none, where none was there.
    pub old: Option<StoredObject>,
    /// The object after the write; none, where the write removed it.
    pub new: Option<StoredObject>,
}

impl Change {
    ghost use Rattle.std.specs.Prelude.{◌≡◌, IfOk};
    ghost use Rattle.watch_cache.specs.Changes.{change_seen};

    /// Returns a copy of the change, which shares the texts of its objects. The error is running out of memory.
    pub fn try_copy(&self) -> Result<Change, AllocError>
        ensures { IfOk result (λ c. change_seen c ≡ change_seen self.now) }
    {
        Ok(Change {
            revision: self.revision,
            key: self.key.try_copy()?,
            old: copied(self.old.as_ref())?,
            new: copied(self.new.as_ref())?,
        })
    }
}

/// Returns a copy of an object, if there is one, which shares its text. The error is running out of memory.
pub fn copied(object: Option<&StoredObject>) -> Result<Option<StoredObject>, AllocError>
    ensures { IfOk result (λ copy. option_map (λ o. o.value) copy ≡ option_map (λ o. o.now.value) object.entry) }
{
    match object {
        None => Ok(None),
        Some(object) => Ok(Some(object.try_copy()?)),
    }
}

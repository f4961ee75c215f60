//! The object that is stored.
ghost use Rattle.std.specs.Prelude.{◌≡◌, IfOk};
ghost use Rattle.serde_json.specs.Written.{compact_text};

use meta::{Object, StoredObject};
use std::alloc::{AllocError, Global};

/// The stored object: as it is stored, to be answered as it stands, and opened, to be compared and changed.
#[derive(Drop)]
pub struct Existing<'a> {
    pub kept: &'a StoredObject,
    pub object: Object,
    ghost told: { compact_text kept.now.value ≡ compact_text object.value },
}

impl Existing<'_> {
    /// Returns the stored object, opened. The error is running out of memory.
    pub fn open(alloc: Global, kept: &StoredObject) -> Result<Existing<'_>, AllocError>
        ensures { IfOk result (λ h. h.object.value ≡ kept.now.value) }
    {
        let object = kept.open(alloc)?;
        Ok(Existing { kept, object })
    }
}

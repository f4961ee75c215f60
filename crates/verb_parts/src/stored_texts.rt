//! Objects as they are to be stored, with their texts.
ghost use Rattle.std.specs.Prelude.{◌≡◌, IfOk, string_bytes};
ghost use Rattle.serde_json.specs.Written.{compact_text};

use meta::{Object, StoredObject};
use std::alloc::{AllocError, Global};

/// Returns the object as it is to be stored, with its text for the reply, which is made of what is stored. The error is running out of memory.
pub fn stored_with_text(
    alloc: Global,
    object: &Object,
) -> Result<(StoredObject, String), AllocError>
    ensures stored { IfOk result (λ made. made.0 ≡ object.now) }
    ensures text { IfOk result (λ made. string_bytes made.1 ≡ compact_text object.now.value) }
{
    let stored = StoredObject::new(alloc, object)?;
    let text = stored.to_text(alloc)?;
    Ok((stored, text))
}

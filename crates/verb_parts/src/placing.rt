//! Objects in the place of others.
ghost use Rattle.std.specs.Prelude.{◌≡◌, ◌+◌, ◌≤◌, IfOk, IfSome, is_some, string_bytes, if◌then◌else◌};
ghost use Rattle.serde_json.specs.Written.{compact_text};
ghost use Rattle.spec_api.specs.Replacements.{is_finalized, says_the_same};
ghost use Rattle.spec_api.specs.Revisions.{greatest_revision};
ghost use Rattle.spec_api.specs.Verbs.{is_past_greatest, put_in_place, take_out};
ghost use Rattle.object_keys.specs.Keys.{key_of};
ghost use Rattle.verb_parts.specs.Serves.{Serves};

use crate::limits::is_too_large;
use crate::stored_texts::stored_with_text;
use lifecycle::is_finalized;
use meta::{Object, StoredObject, Write};
use metadata_values::GREATEST_REVISION;
use object_keys::{Fault, Key};
use reply::Reply;
use std::alloc::{AllocError, Global};

/// Returns the text of the stored object, if another at its version says the same.
pub fn unchanged(
    alloc: Global,
    existing: &StoredObject,
    object: &Object,
) -> Result<Option<String>, AllocError>
    ensures same { IfOk result (λ found. is_some found ≡ says_the_same existing.now.value object.now.value) }
    ensures text { IfOk result (λ found. IfSome found (λ s. string_bytes s ≡ compact_text existing.now.value)) }
{
    let text = object.text(alloc)?;
    if text == existing.to_text(alloc)? {
        Ok(Some(text))
    } else {
        Ok(None)
    }
}

/// Returns whether the revision after this one is past the greatest.
pub fn is_full(before: u64) -> bool
    requires { before ≤ greatest_revision }
    ensures { result ≡ is_past_greatest (before + 1) }
{
    before >= GREATEST_REVISION
}

/// Returns the object under a key in the place of another, or the first refusal: of the length, the room.
pub fn put_in_place(
    alloc: Global,
    key: Key,
    object: &Object,
    before: u64,
) -> Result<(Reply, Option<Write>), Fault>
    requires { before ≤ greatest_revision }
    ensures { Serves (put_in_place (key_of key) object.now.value before) result }
{
    let (stored, text) = stored_with_text(alloc, object)?;
    if is_too_large(text.as_str()) {
        return Err(Fault::TooLarge);
    }
    if is_full(before) {
        return Err(Fault::StorageFull);
    }
    let write = Write {
        key,
        put: Some(stored),
    };
    Ok((Reply { code: 200, text }, Some(write)))
}

/// Returns the object under a key in the place of the stored one or, where the last finalizer is removed, its removal; or the
/// first refusal: of the length of what is put, the room.
pub fn replaced(
    alloc: Global,
    key: Key,
    existing: &Object,
    object: &Object,
    before: u64,
) -> Result<(Reply, Option<Write>), Fault>
    requires { before ≤ greatest_revision }
    ensures { Serves (if is_finalized existing.now.value object.now.value then take_out (key_of key) object.now.value before
        else put_in_place (key_of key) object.now.value before) result }
{
    if !is_finalized(existing, object) {
        return put_in_place(alloc, key, object, before);
    }
    let text = object.text(alloc)?;
    if is_full(before) {
        return Err(Fault::StorageFull);
    }
    let write = Write { key, put: None };
    Ok((Reply { code: 200, text }, Some(write)))
}

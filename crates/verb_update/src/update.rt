//! What an update is answered and writes: an object in the place of the stored one.
ghost use Rattle.std.specs.Prelude.{◌≡◌, ◌≤◌, List, ℕ, IfOk};
ghost use Rattle.serde_json.specs.View.{view};
ghost use Rattle.spec_api.specs.Metadata.{metadata_of, with_metadata};
ghost use Rattle.spec_api.specs.Replacements.{in_place, keeping, unchanged_metadata, unchanged_members};
ghost use Rattle.spec_api.specs.Revisions.{greatest_revision};
ghost use Rattle.spec_api.specs.Values.{members_of};
ghost use Rattle.spec_api.specs.Verbs.{accept_at, replace};
ghost use Rattle.spec_api.specs.ObjectRequests.{update_object};
ghost use Rattle.spec_api.proofs.VerbSteps.{replace_with, replace_changed};
ghost use Rattle.object_keys.specs.Keys.{key_of};
ghost use Rattle.verb_parts.specs.Serves.{Serves};

use meta::{Object, StoredObject, Write};
use metadata_editor::Draft;
use object_keys::{Fault, Key};
use reply::Reply;
use serde_json::Value;
use spec_api::refusals::Part;
use std::alloc::{AllocError, Global};
use store::Store;
use validate::check_update;
use verb_parts::bodies::object_in;
use verb_parts::existing::Existing;
use verb_parts::generations::updated;
use verb_parts::names_given::{mismatch, names_path};
use verb_parts::{replaced, unchanged};

/// Returns the object of a body, in the place of the one under a key.
pub fn update(
    alloc: Global,
    store: &Store,
    key: Key,
    body: Value,
) -> Result<(Reply, Option<Write>), Fault>
    ensures { (moment : List ℕ) → Serves (accept_at (update_object (key_of key) (view body)) store.now.members store.now.revision moment) result }
{
    let object = object_in(alloc, key.kind, body)?;
    if !names_path(&key, &object) {
        return Err(Fault::BadRequest(Part::Object));
    }
    match store.get(&key) {
        None => Err(Fault::NotFound(key)),
        Some(stored) => replace(alloc, key, object, store.revision(), stored),
    }
}

/// Returns an object in the place of the stored one, if that is the one that it names.
fn replace(
    alloc: Global,
    key: Key,
    object: Object,
    before: u64,
    stored: &StoredObject,
) -> Result<(Reply, Option<Write>), Fault>
    requires revision { before ≤ greatest_revision }
    requires kind { object.kind ≡ key.kind }
    ensures { Serves (replace (key_of key) object.value before stored.now.value) result }
{
    let existing = Existing::open(alloc, stored)?;
    replace_existing(alloc, key, object, before, &existing)
}

/// Returns an object in the place of the stored one, if that is the one that it names.
pub(crate) fn replace_existing(
    alloc: Global,
    key: Key,
    object: Object,
    before: u64,
    existing: &Existing<'_>,
) -> Result<(Reply, Option<Write>), Fault>
    requires revision { before ≤ greatest_revision }
    requires kind { object.kind ≡ key.kind }
    ensures { Serves (replace (key_of key) object.value before existing.now.object.value) result }
{
    match mismatch(&object, &existing.object) {
        Some(why) => Err(Fault::Conflict(key, why)),
        None => {
            let object = in_place(alloc, object, &existing.object)?;
            replace_with(alloc, key, existing, object, before)
        }
    }
}

/// Returns the object with the status that is stored, if its kind has one.
fn keep_status(alloc: Global, object: Object, existing: &Object) -> Result<Object, AllocError>
    ensures members { IfOk result (λ o. members_of o.value ≡ keeping (unchanged_members object.kind) (members_of existing.now.value) (members_of object.value)) }
    ensures metadata { IfOk result (λ o. metadata_of o.value ≡ metadata_of object.value) }
    ensures kind { IfOk result (λ o. o.kind ≡ object.kind) }
{
    if !object.kind().has_status() {
        return Ok(object);
    }
    let with_status = object.keep_member(alloc, "status", existing)?;
    Ok(with_status)
}

/// Returns the object with those members of the metadata that an update leaves as they are stored.
fn keep_metadata(alloc: Global, object: Object, existing: &Object) -> Result<Object, AllocError>
    ensures value { IfOk result (λ o. o.value ≡ with_metadata (keeping unchanged_metadata (metadata_of existing.now.value) (metadata_of object.value)) object.value) }
    ensures kind { IfOk result (λ o. o.kind ≡ object.kind) }
{
    let mut draft = Draft::new(alloc, object)?;
    draft.keep(alloc, "namespace", existing)?;
    draft.keep(alloc, "uid", existing)?;
    draft.keep(alloc, "creationTimestamp", existing)?;
    draft.keep(alloc, "deletionTimestamp", existing)?;
    draft.keep(alloc, "generation", existing)?;
    draft.keep(alloc, "resourceVersion", existing)?;
    let made = draft.close(alloc)?;
    Ok(made)
}

/// Returns the object in the place of the stored one, still at its old resourceVersion.
fn in_place(alloc: Global, object: Object, existing: &Object) -> Result<Object, AllocError>
    ensures value { IfOk result (λ o. o.value ≡ in_place object.kind existing.now.value object.value) }
    ensures kind { IfOk result (λ o. o.kind ≡ object.kind) }
{
    let with_status = keep_status(alloc, object, existing)?;
    keep_metadata(alloc, with_status, existing)
}

/// Returns the object in the place of the stored one, if each of its fields is valid.
fn replace_with(
    alloc: Global,
    key: Key,
    existing: &Existing<'_>,
    object: Object,
    before: u64,
) -> Result<(Reply, Option<Write>), Fault>
    requires revision { before ≤ greatest_revision }
    requires kind { object.kind ≡ key.kind }
    ensures { Serves (replace_with (key_of key) existing.now.object.value object.value before) result }
{
    check_update(alloc, &existing.object, &object, &key, before)?;
    replace_changed(alloc, key, existing, object, before)
}

/// Returns the object in the place of the stored one: where it says the same nothing is written, and where its last
/// finalizer is removed, it is removed.
fn replace_changed(
    alloc: Global,
    key: Key,
    existing: &Existing<'_>,
    object: Object,
    before: u64,
) -> Result<(Reply, Option<Write>), Fault>
    requires { before ≤ greatest_revision }
    ensures { Serves (replace_changed (key_of key) existing.now.object.value object.value before) result }
{
    if let Some(text) = unchanged(alloc, existing.kept, &object)? {
        return Ok((Reply { code: 200, text }, None));
    }
    let object = updated(alloc, key.kind, object, &existing.object, before)?;
    replaced(alloc, key, &existing.object, &object, before)
}

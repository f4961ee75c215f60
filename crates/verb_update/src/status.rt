//! Updates of the status.
ghost use Rattle.std.specs.Prelude.{◌≡◌, ◌≤◌, List, ℕ, IfOk, IfSome, codes, false, option_map};
ghost use Rattle.serde_json.specs.Find.{get};
ghost use Rattle.serde_json.specs.View.{view};
ghost use Rattle.serde_json.specs.Written.{has_float};
ghost use Rattle.spec_api.specs.Replacements.{status_in, with_status_in};
ghost use Rattle.spec_api.specs.Revisions.{greatest_revision};
ghost use Rattle.spec_api.specs.Verbs.{accept_at, replace_status};
ghost use Rattle.spec_api.specs.ObjectRequests.{update_status};
ghost use Rattle.spec_api.proofs.VerbSteps.{restate};
ghost use Rattle.object_keys.specs.Keys.{key_of};
ghost use Rattle.verb_parts.specs.Serves.{Serves};

use meta::{Object, Write};
use object_keys::{Fault, Key};
use reply::Reply;
use serde_json::Value;
use spec_api::kinds::Kind;
use spec_api::refusals::{Field, Part};
use std::alloc::{AllocError, Global};
use store::Store;
use validate::is_status_valid;
use verb_parts::existing::Existing;
use verb_parts::first_status::first_status;
use verb_parts::generations::at_revision;
use verb_parts::names_given::{mismatch, names_path};
use verb_parts::{put_in_place, unchanged};

/// Returns the object under a key with the status of a body. Nothing else of the body is taken. Of a
/// kind that has no status none is found.
pub fn update_status(
    alloc: Global,
    store: &Store,
    key: Key,
    body: Value,
) -> Result<(Reply, Option<Write>), Fault>
    ensures { (moment : List ℕ) → Serves (accept_at (update_status (key_of key) (view body)) store.now.members store.now.revision moment) result }
{
    if !key.kind.has_status() {
        return Err(Fault::NotFound(key));
    }
    let object = Object::from_value(alloc, key.kind, body)?;
    if !names_path(&key, &object) {
        return Err(Fault::BadRequest(Part::Object));
    }
    match store.get(&key) {
        None => Err(Fault::NotFound(key)),
        Some(kept) => {
            let existing = Existing::open(alloc, kept)?;
            restate_with(alloc, key, &object, store.revision(), &existing)
        }
    }
}

/// Returns the stored object with the status of another, if it is the one that the other names.
fn restate_with(
    alloc: Global,
    key: Key,
    object: &Object,
    before: u64,
    existing: &Existing<'_>,
) -> Result<(Reply, Option<Write>), Fault>
    requires { before ≤ greatest_revision }
    ensures { Serves (replace_status (key_of key) object.now.value before existing.now.object.value) result }
{
    match mismatch(object, &existing.object) {
        Some(why) => Err(Fault::Conflict(key, why)),
        None => {
            let object = with_said_status(alloc, key.kind, &existing.object, object)?;
            restate(alloc, key, existing, object, before)
        }
    }
}

/// Returns the status of an object, or the first one of its kind where it has none.
fn said_status(alloc: Global, kind: Kind, object: &Object) -> Result<Option<Value>, AllocError>
    ensures status { IfOk result (λ s. option_map (λ v. view v) s ≡ status_in kind (get (codes "status") object.now.value)) }
    ensures no_float { IfOk result (λ s. IfSome s (λ v. has_float (view v) ≡ false)) }
{
    match object.member("status") {
        Some(found) => Ok(Some(found.clone()?)),
        None => first_status(alloc, kind),
    }
}

/// Returns the stored object, with the status of another.
fn with_said_status(
    alloc: Global,
    kind: Kind,
    existing: &Object,
    object: &Object,
) -> Result<Object, AllocError>
    ensures { IfOk result (λ o. o.value ≡ with_status_in kind existing.now.value object.now.value) }
{
    let value = existing.try_copy()?.into_value();
    let copy = Object::from_whole(kind, value);
    match said_status(alloc, kind, object)? {
        Some(status) => copy.set_member(alloc, "status", status),
        None => Ok(copy),
    }
}

/// Returns the stored object with its new status, or the first refusal: of a count, the length, the room. Where the status says
/// the same nothing is written.
fn restate(
    alloc: Global,
    key: Key,
    existing: &Existing<'_>,
    object: Object,
    before: u64,
) -> Result<(Reply, Option<Write>), Fault>
    requires { before ≤ greatest_revision }
    ensures { Serves (restate (key_of key) existing.now.object.value object.value before) result }
{
    if !is_status_valid(key.kind, &object) {
        return Err(Fault::Invalid(key, Field::Status));
    }
    if let Some(text) = unchanged(alloc, existing.kept, &object)? {
        return Ok((Reply { code: 200, text }, None));
    }
    let object = at_revision(alloc, object, before)?;
    put_in_place(alloc, key, &object, before)
}

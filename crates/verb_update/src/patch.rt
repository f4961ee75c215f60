//! What a merge patch is answered and writes: the stored object as the patch changes it.
ghost use Rattle.std.specs.Prelude.{◌≡◌, ◌≤◌, List, ℕ};
ghost use Rattle.serde_json.specs.View.{view};
ghost use Rattle.spec_api.specs.Revisions.{greatest_revision};
ghost use Rattle.spec_api.specs.Values.{merged};
ghost use Rattle.spec_api.specs.Verbs.{accept_at, object_in};
ghost use Rattle.spec_api.specs.ObjectRequests.{patch_object};
ghost use Rattle.spec_api.proofs.VerbSteps.{patch_read};
ghost use Rattle.object_keys.specs.Keys.{key_of};
ghost use Rattle.verb_parts.specs.Serves.{Serves};

use crate::update::replace_existing;
use json_values::merge;
use meta::Write;
use meta::reading::is_body;
use object_keys::{Fault, Key};
use reply::Reply;
use serde_json::Value;
use spec_api::refusals::Part;
use std::alloc::Global;
use store::Store;
use verb_parts::bodies::object_in;
use verb_parts::existing::Existing;
use verb_parts::names_given::names_path;

/// Returns the object under a key as a merge patch (RFC 7396) changes it, in its own place.
pub fn patch(
    alloc: Global,
    store: &Store,
    key: Key,
    body: Value,
) -> Result<(Reply, Option<Write>), Fault>
    ensures { (moment : List ℕ) → Serves (accept_at (patch_object (key_of key) (view body)) store.now.members store.now.revision moment) result }
{
    if !is_body(&body) {
        return Err(Fault::BadRequest(Part::Body));
    }
    match store.get(&key) {
        None => Err(Fault::NotFound(key)),
        Some(kept) => {
            let existing = Existing::open(alloc, kept)?;
            patch_held(alloc, key, body, store.revision(), &existing)
        }
    }
}

/// Returns the stored object as a patch changes it, read as a body that names the object of its path.
fn patch_held(
    alloc: Global,
    key: Key,
    body: Value,
    before: u64,
    existing: &Existing<'_>,
) -> Result<(Reply, Option<Write>), Fault>
    requires { before ≤ greatest_revision }
    ensures { Serves (patch_read (key_of key) before existing.now.object.value (object_in key.kind (merged existing.now.object.value (view body)))) result }
{
    let target = existing.object.try_copy()?.into_value();
    let changed = merge(alloc, body, target)?;
    let object = object_in(alloc, key.kind, changed)?;
    if !names_path(&key, &object) {
        return Err(Fault::BadRequest(Part::Object));
    }
    replace_existing(alloc, key, object, before, existing)
}

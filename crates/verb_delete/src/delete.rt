//! What a delete is answered and writes: the object removed, or being deleted from then on.
ghost use Rattle.std.specs.Prelude.{◌≡◌, ◌+◌, ◌≤◌, IfOk, string_bytes};
ghost use Rattle.serde_json.specs.Written.{compact_text};
ghost use Rattle.spec_api.specs.Deletion.{decided, gone, kept_code, removal_of};
ghost use Rattle.spec_api.specs.Revisions.{greatest_revision};
ghost use Rattle.spec_api.specs.Verbs.{accept_at, by_decision, take_out};
ghost use Rattle.spec_api.specs.ObjectRequests.{delete_object};
ghost use Rattle.spec_api.proofs.VerbSteps.{by_fate, put_mark};
ghost use Rattle.lifecycle.specs.Fates.{fate_seen};
ghost use Rattle.lifecycle.specs.Options.{options_seen};
ghost use Rattle.object_keys.specs.Keys.{key_of};
ghost use Rattle.verb_parts.specs.Serves.{Serves};

use lifecycle::{DeleteFault, DeleteOptions, Fate, decide_delete};
use meta::{Object, Write};
use metadata_values::moments::Moment;
use object_keys::{Fault, Key};
use reply::{Reply, success_text};
use spec_api::kinds::Kind;
use spec_api::policies::Policy;
use std::alloc::{AllocError, Global};
use store::Store;
use verb_parts::generations::at_revision;
use verb_parts::is_full;
use verb_parts::stored_texts::stored_with_text;

/// Returns the object under a key removed or, while finalizers are left, being deleted from this moment on.
pub fn delete(
    alloc: Global,
    store: &Store,
    key: Key,
    options: &DeleteOptions,
    moment: Moment,
) -> Result<(Reply, Option<Write>), Fault>
    ensures { Serves (accept_at (delete_object (key_of key) (options_seen options.now)) store.now.members store.now.revision moment) result }
{
    match store.get(&key) {
        None => Err(Fault::NotFound(key)),
        Some(kept) => {
            let existing = kept.open(alloc)?;
            delete_held(alloc, key, existing, options, store.revision(), moment)
        }
    }
}

/// Returns the stored object removed or with its deletionTimestamp set, if it meets the preconditions.
fn delete_held(
    alloc: Global,
    key: Key,
    existing: Object,
    options: &DeleteOptions,
    before: u64,
    moment: Moment,
) -> Result<(Reply, Option<Write>), Fault>
    requires { before ≤ greatest_revision }
    ensures { Serves (by_decision (key_of key) (kept_code options.now.policy) existing.value before
        (decided key.kind (options_seen options.now) moment existing.value)) result }
{
    match decide_delete(alloc, key.kind, &existing, options, moment) {
        Ok(fate) => by_fate(
            alloc,
            key,
            kept_code(options.policy),
            existing,
            before,
            fate,
        ),
        Err(DeleteFault::Mismatch(why)) => Err(Fault::Conflict(key, why)),
        Err(DeleteFault::NoMemory) => Err(Fault::NoMemory),
    }
}

/// Returns the HTTP status code where the object is not removed: 202 where its dependents are to be deleted first.
fn kept_code(policy: Option<Policy>) -> u16
    ensures { result ≡ kept_code policy }
{
    match policy {
        Some(Policy::Foreground) => 202,
        _ => 200,
    }
}

/// Returns what is answered to a delete with this fate, and written.
fn by_fate(
    alloc: Global,
    key: Key,
    code: u16,
    existing: Object,
    before: u64,
    fate: Fate,
) -> Result<(Reply, Option<Write>), Fault>
    requires { before ≤ greatest_revision }
    ensures { Serves (by_fate (key_of key) code existing.value before (fate_seen fate)) result }
{
    match fate {
        Fate::Remove => remove(alloc, key, existing, before),
        Fate::Mark(object) => put_mark(alloc, key, code, object, before),
        Fate::Keep => {
            let text = existing.text(alloc)?;
            Ok((Reply { code, text }, None))
        }
    }
}

/// Returns the object with its deletionTimestamp set, in the place of the stored one, unless a write has no room. It has no
/// greatest length: what is too long for that could not be deleted.
fn put_mark(
    alloc: Global,
    key: Key,
    code: u16,
    object: Object,
    before: u64,
) -> Result<(Reply, Option<Write>), Fault>
    requires { before ≤ greatest_revision }
    ensures { Serves (put_mark code (key_of key) object.value before) result }
{
    if is_full(before) {
        return Err(Fault::StorageFull);
    }
    let object = at_revision(alloc, object, before)?;
    let (stored, text) = stored_with_text(alloc, &object)?;
    let write = Write {
        key,
        put: Some(stored),
    };
    Ok((Reply { code, text }, Some(write)))
}

/// Returns the object under a key removed, unless there is no room for a write.
fn remove(
    alloc: Global,
    key: Key,
    existing: Object,
    before: u64,
) -> Result<(Reply, Option<Write>), Fault>
    requires { before ≤ greatest_revision }
    ensures { Serves (take_out (key_of key) (removal_of key.kind (key_of key) (before + 1) existing.value) before) result }
{
    if is_full(before) {
        return Err(Fault::StorageFull);
    }
    let text = removal_text(alloc, &key, existing, before)?;
    let removal = Write { key, put: None };
    Ok((Reply { code: 200, text }, Some(removal)))
}

/// Returns the text that answers a removal: of a Pod the Pod, at the revision of its removal, of another kind a Status that
/// names the object.
fn removal_text(
    alloc: Global,
    key: &Key,
    existing: Object,
    before: u64,
) -> Result<String, AllocError>
    requires { before ≤ greatest_revision }
    ensures { IfOk result (λ t. string_bytes t
        ≡ compact_text (removal_of key.now.kind (key_of key.now) (before + 1) existing.value)) }
{
    match key.kind {
        Kind::Pod => {
            let last = at_revision(alloc, existing, before)?;
            last.text(alloc)
        }
        _ => gone_text(alloc, key, &existing),
    }
}

/// Returns the text of the Status that answers the removal of an object.
fn gone_text(alloc: Global, key: &Key, existing: &Object) -> Result<String, AllocError>
    ensures { IfOk result (λ t. string_bytes t ≡ compact_text (gone (key_of key.now) existing.now.value)) }
{
    success_text(alloc, Some((key, existing.uid().unwrap_or(""))))
}

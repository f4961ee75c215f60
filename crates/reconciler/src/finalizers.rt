//! Finalizers that a controller puts on its objects: while an object has one, a delete lets it stay, marked, until it is removed.
ghost use Rattle.std.specs.Prelude.{◌≡◌, IfOk, IfErr, Ok, map, not, option_map};
ghost use Rattle.std.specs.Str.{bytes_eq};
ghost use Rattle.serde_json.specs.View.{view, items_view};
ghost use Rattle.spec_api.specs.Checks.{text_is};
ghost use Rattle.spec_reconcile.specs.MetadataEdits.{only, with_last};
ghost use Rattle.object_keys.specs.Keys.{key_of};
ghost use Rattle.request_parts.specs.Requests.{request_of};
ghost use Rattle.reconciler.specs.Guarded.{Refuses};
ghost use Rattle.reconciler.specs.Finalizers.{adds_finalizer, but_finalizer, drops_finalizer, finalizers_patch, with_finalizer};

use crate::guarding::guarded;
use keyed_board::Failure;
use meta::Object;
use meta::finalizers::{has_text, is_text};
use object_keys::Key;
use request_parts::Request;
use serde_json::{Value, json};
use std::alloc::{AllocError, Global};

/// Returns copies of items, with room for one more.
fn copies(alloc: Global, items: &[Value]) -> Result<Vec<Value>, AllocError>
    ensures { IfOk result (λ v. map view v.items ≡ map view items.now) }
{
    let mut copies = Vec::with_capacity(alloc, items.len() + 1)?;
    for item in items {
        copies.push(item.clone()?)?;
    }
    Ok(copies)
}

/// Returns copies of the items but those that are this text.
fn other_texts(alloc: Global, text: &str, items: &[Value]) -> Result<Vec<Value>, AllocError>
    ensures { IfOk result (λ v. items_view v.items ≡ only (λ f. not (text_is (bytes_eq text.now) f)) (items_view items.now)) }
{
    let mut others = Vec::with_capacity(alloc, items.len())?;
    for item in items {
        if !is_text(item, text) {
            others.push(item.clone()?)?;
        }
    }
    Ok(others)
}

/// Returns the finalizers of an object, and one more.
fn with_finalizer(alloc: Global, object: &Object, finalizer: &str) -> Result<Vec<Value>, AllocError>
    ensures { IfOk result (λ v. items_view v.items ≡ with_finalizer finalizer.now object.now.value) }
{
    let mut finalizers = copies(alloc, object.finalizers())?;
    finalizers.push(Value::try_from_str(alloc, finalizer)?)?;
    Ok(finalizers)
}

/// Returns the patch of an object that gives it these finalizers, where it is still as it was seen.
fn finalizers_patch(
    alloc: Global,
    object: &Object,
    finalizers: Vec<Value>,
) -> Result<Value, AllocError>
    ensures { IfOk result (λ v. view v ≡ finalizers_patch (items_view finalizers.items) object.now.value) }
{
    let items = Value::Array(finalizers);
    let version = object.resource_version().unwrap_or("");
    let metadata = json!(in alloc; {"finalizers": items, "resourceVersion": version})?;
    json!(in alloc; {"metadata": metadata})
}

/// Returns the patch that adds a finalizer to the object under a key, after those that were seen; none just where it was seen to have it. It names the
/// version that was seen, so that no other finalizer is lost: who wrote since makes it a conflict. To an object that is being deleted a server adds
/// none. The errors are running out of memory, and that the object was seen without a version.
pub fn ensure_finalizer(
    alloc: Global,
    key: Key,
    object: &Object,
    finalizer: &str,
) -> Result<Option<Request>, Failure>
    ensures asked { IfOk result (λ next. adds_finalizer finalizer.now (key_of key) object.now.value ≡ Ok (option_map request_of next)) }
    ensures refused { IfErr result (Refuses (adds_finalizer finalizer.now (key_of key) object.now.value)) }
{
    if has_text(object.finalizers(), finalizer) {
        return Ok(None);
    }
    let finalizers = with_finalizer(alloc, object, finalizer)?;
    let patch = finalizers_patch(alloc, object, finalizers)?;
    guarded(object, Request::Patch(key, patch))
}

/// Returns the patch that removes a finalizer from the object under a key, and no other; none just where it was seen without it. It names the version
/// that was seen. Where the last one is removed of an object that is being deleted, it is gone. The errors are running out of memory, and that the object was seen
/// without a version.
pub fn remove_finalizer(
    alloc: Global,
    key: Key,
    object: &Object,
    finalizer: &str,
) -> Result<Option<Request>, Failure>
    ensures asked { IfOk result (λ next. drops_finalizer finalizer.now (key_of key) object.now.value ≡ Ok (option_map request_of next)) }
    ensures refused { IfErr result (Refuses (drops_finalizer finalizer.now (key_of key) object.now.value)) }
{
    if !has_text(object.finalizers(), finalizer) {
        return Ok(None);
    }
    let finalizers = other_texts(alloc, finalizer, object.finalizers())?;
    let patch = finalizers_patch(alloc, object, finalizers)?;
    guarded(object, Request::Patch(key, patch))
}

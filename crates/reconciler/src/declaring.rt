//! Objects that a controller declares.
ghost use Rattle.std.specs.Prelude.{◌≡◌, IfOk, IfErr, Ok, [], codes, option_map, unwrap_or};
ghost use Rattle.serde_json.specs.View.{view};
ghost use Rattle.spec_api.specs.Metadata.{version};
ghost use Rattle.object_keys.specs.Keys.{key_of};
ghost use Rattle.request_parts.specs.Requests.{request_of};
ghost use Rattle.reconciler.specs.Guarded.{Refuses};
ghost use Rattle.reconciler.specs.Declarations.{at_seen_version, brings_about, is_other_than, metadata_patch, named};

use crate::guarding::guarded;
use json_values::merging::merge;
use json_values::values::has_float;
use keyed_board::Failure;
use meta::Object;
use object_keys::Key;
use request_parts::Request;
use serde_json::{Value, json};
use std::alloc::{AllocError, Global};

/// Returns whether an object says something else than with what is declared merged into it.
fn is_other_than(alloc: Global, declared: &Value, seen: &Object) -> Result<bool, AllocError>
    ensures { IfOk result (λ b. b ≡ is_other_than (view declared.now) seen.now.value) }
{
    let before = seen.text(alloc)?;
    let merged = merge(alloc, declared.clone()?, seen.try_copy()?.into_value())?;
    if has_float(&merged) {
        return Ok(true);
    }
    let after = merged.to_string(alloc)?;
    Ok(before.as_str() != after.as_str())
}

/// Returns what is declared, with a name.
fn named(alloc: Global, name: &str, declared: Value) -> Result<Value, AllocError>
    ensures { IfOk result (λ v. view v ≡ named name.now (view declared)) }
{
    let metadata = json!(in alloc; {"name": name})?;
    let patch = json!(in alloc; {"metadata": metadata})?;
    merge(alloc, patch, declared)
}

/// Returns the patch that names the version of the object that was seen.
fn version_patch(alloc: Global, seen: &Object) -> Result<Value, AllocError>
    ensures { IfOk result (λ v. view v ≡ metadata_patch (codes "resourceVersion") (unwrap_or (version seen.now.value) [])) }
{
    let version = seen.resource_version().unwrap_or("");
    let metadata = json!(in alloc; {"resourceVersion": version})?;
    json!(in alloc; {"metadata": metadata})
}

/// Returns what is declared, with the version of the object that was seen.
fn at_seen_version(alloc: Global, seen: &Object, declared: Value) -> Result<Value, AllocError>
    ensures { IfOk result (λ v. view v ≡ at_seen_version seen.now.value (view declared)) }
{
    let patch = version_patch(alloc, seen)?;
    merge(alloc, patch, declared)
}

/// Returns what has the object under a key be there and say what is declared, by what is shown of it. Where it is absent it is created, by the key's
/// name. Where it says something else it is patched: what is declared is merged into it (RFC 7396), and the version that was seen is named, so that
/// who wrote since makes it a conflict. Nothing is returned just where it says so already. A list is declared, and compared, as a whole: so one that others add to,
/// as `finalizers`, is not to be declared, and one into whose items a server writes defaults, as `containers`, is to be declared with these, since it is
/// patched again at each reconcile else. The errors are running out of memory, and that the object was seen without a version.
pub fn create_or_patch(
    alloc: Global,
    key: Key,
    shown: Option<&Object>,
    declared: Value,
) -> Result<Option<Request>, Failure>
    ensures asked { IfOk result (λ next. brings_about (key_of key) (view declared) (option_map (λ o. o.now.value) shown.entry) ≡ Ok (option_map request_of next)) }
    ensures refused { IfErr result (Refuses (brings_about (key_of key) (view declared) (option_map (λ o. o.now.value) shown.entry))) }
{
    let Some(seen) = shown else {
        let body = named(alloc, key.name.as_str(), declared)?;
        let kind = key.kind;
        let (namespace, _name) = key.into_texts();
        return Ok(Some(Request::Create(kind, namespace, body)));
    };
    if !is_other_than(alloc, &declared, seen)? {
        return Ok(None);
    }
    let patch = at_seen_version(alloc, seen, declared)?;
    guarded(seen, Request::Patch(key, patch))
}

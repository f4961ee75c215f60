//! The targets of requests of one object, and of collections: paths, with no query.
ghost use Rattle.std.specs.Prelude.{◌≡◌, IfOk, option_map, string_bytes};
ghost use Rattle.spec_api.specs.Targets.{collection, object_at, status_of, path_text, prefix};
ghost use Rattle.object_keys.specs.Keys.{key_of};

use object_keys::Key;
use spec_api::kinds::{Group, Kind};
use std::alloc::{AllocError, Global};

/// Returns the start of a group's paths (Kubernetes API Concepts, Resource URIs).
fn prefix(group: Group) -> &'static str
    ensures { result.now ≡ prefix group }
{
    match group {
        Group::Core => "/api/v1",
        Group::Apps => "/apis/apps/v1",
    }
}

/// Returns the path of the objects of a kind, in a namespace or in all. The error is running out of memory.
pub fn collection_target(
    alloc: Global,
    kind: Kind,
    namespace: Option<&str>,
) -> Result<String, AllocError>
    ensures { IfOk result (λ t. string_bytes t ≡ path_text (collection kind (option_map (λ n. n.now) namespace.entry))) }
{
    let mut text = String::from_str(alloc, prefix(kind.group()))?;
    if let Some(namespace) = namespace {
        text.push_str("/namespaces/")?;
        text.push_str(namespace)?;
    }
    text.push_str("/")?;
    text.push_str(kind.plural())?;
    Ok(text)
}

/// Returns the path of an object. The error is running out of memory.
pub fn object_target(alloc: Global, key: &Key) -> Result<String, AllocError>
    ensures { IfOk result (λ t. string_bytes t ≡ path_text (object_at (key_of key.now))) }
{
    let mut text = collection_target(alloc, key.kind, Some(key.namespace.as_str()))?;
    text.push_str("/")?;
    text.push_str(key.name.as_str())?;
    Ok(text)
}

/// Returns the path of the status of an object. The error is running out of memory.
pub fn status_target(alloc: Global, key: &Key) -> Result<String, AllocError>
    ensures { IfOk result (λ t. string_bytes t ≡ path_text (status_of (key_of key.now))) }
{
    let mut text = object_target(alloc, key)?;
    text.push_str("/status")?;
    Ok(text)
}

//! What each request of one object is asked by.
ghost use Rattle.std.specs.Prelude.{◌≡◌, IfOk, Some, true, string_bytes};
ghost use Rattle.serde_json.specs.Read.{read};
ghost use Rattle.serde_json.specs.View.{view};
ghost use Rattle.spec_api.specs.ObjectRequests.{get_object, create_object, update_object, update_status, patch_object, delete_object};
ghost use Rattle.object_keys.specs.Keys.{key_of};
ghost use Rattle.lifecycle.specs.Options.{options_seen};
ghost use Rattle.request_parts.specs.Requests.{request_of};
ghost use Rattle.request_encoding.specs.Texts.{IsPath, is_shallow, can_be_told};
ghost use Rattle.request_encoding.specs.Told.{Asks};

use crate::deletes::options_text;
use crate::targets::{collection_target, object_target, status_target};
use crate::text::RequestText;
use lifecycle::DeleteOptions;
use object_keys::Key;
use request_parts::Request;
use serde_json::Value;
use spec_api::kinds::Kind;
use spec_api::methods::Method;
use std::alloc::{AllocError, Global};

/// Returns the text of JSON, which is read back as it.
fn json_text(alloc: Global, value: &Value) -> Result<String, AllocError>
    requires { is_shallow (view value.now) ≡ true }
    ensures { IfOk result (λ text. read (string_bytes text) ≡ Some (view value.now)) }
{
    value.to_string(alloc)
}

/// Returns what the object under a key is asked for by. The error is running out of memory.
pub fn get_text(alloc: Global, key: &Key) -> Result<RequestText, AllocError>
    requires { can_be_told (get_object (key_of key.now)) ≡ true }
    ensures path { IfOk result (λ t. IsPath (string_bytes t.target)) }
    ensures asks { IfOk result (Asks (get_object (key_of key.now))) }
{
    Ok(RequestText {
        method: Method::Get,
        target: object_target(alloc, key)?,
        body: String::new(alloc),
    })
}

/// Returns what a create of an object of a kind, in a namespace, is asked by. The error is running out of memory.
pub fn create_text(
    alloc: Global,
    kind: Kind,
    namespace: &str,
    object: &Value,
) -> Result<RequestText, AllocError>
    requires { can_be_told (create_object kind namespace.now (view object.now)) ≡ true }
    ensures path { IfOk result (λ t. IsPath (string_bytes t.target)) }
    ensures asks { IfOk result (Asks (create_object kind namespace.now (view object.now))) }
{
    Ok(RequestText {
        method: Method::Post,
        target: collection_target(alloc, kind, Some(namespace))?,
        body: json_text(alloc, object)?,
    })
}

/// Returns what an update of the object under a key is asked by. The error is running out of memory.
pub fn update_text(alloc: Global, key: &Key, object: &Value) -> Result<RequestText, AllocError>
    requires { can_be_told (update_object (key_of key.now) (view object.now)) ≡ true }
    ensures path { IfOk result (λ t. IsPath (string_bytes t.target)) }
    ensures asks { IfOk result (Asks (update_object (key_of key.now) (view object.now))) }
{
    Ok(RequestText {
        method: Method::Put,
        target: object_target(alloc, key)?,
        body: json_text(alloc, object)?,
    })
}

/// Returns what an update of the status of the object under a key is asked by. The error is running out of memory.
pub fn update_status_text(
    alloc: Global,
    key: &Key,
    object: &Value,
) -> Result<RequestText, AllocError>
    requires { can_be_told (update_status (key_of key.now) (view object.now)) ≡ true }
    ensures path { IfOk result (λ t. IsPath (string_bytes t.target)) }
    ensures asks { IfOk result (Asks (update_status (key_of key.now) (view object.now))) }
{
    Ok(RequestText {
        method: Method::Put,
        target: status_target(alloc, key)?,
        body: json_text(alloc, object)?,
    })
}

/// Returns what a merge patch of the object under a key is asked by. The error is running out of memory.
pub fn patch_text(alloc: Global, key: &Key, patch: &Value) -> Result<RequestText, AllocError>
    requires { can_be_told (patch_object (key_of key.now) (view patch.now)) ≡ true }
    ensures path { IfOk result (λ t. IsPath (string_bytes t.target)) }
    ensures asks { IfOk result (Asks (patch_object (key_of key.now) (view patch.now))) }
{
    Ok(RequestText {
        method: Method::Patch,
        target: object_target(alloc, key)?,
        body: json_text(alloc, patch)?,
    })
}

/// Returns what a delete of the object under a key is asked by, with its options in the body. The error is running out of memory.
pub fn delete_text(
    alloc: Global,
    key: &Key,
    options: &DeleteOptions,
) -> Result<RequestText, AllocError>
    requires { can_be_told (delete_object (key_of key.now) (options_seen options.now)) ≡ true }
    ensures path { IfOk result (λ t. IsPath (string_bytes t.target)) }
    ensures asks { IfOk result (Asks (delete_object (key_of key.now) (options_seen options.now))) }
{
    Ok(RequestText {
        method: Method::Delete,
        target: object_target(alloc, key)?,
        body: options_text(alloc, options)?,
    })
}

/// Returns the method, the target and the body by which a request of one object is asked over HTTP: a server that reads them takes them
/// for this request, unless the body is longer than it may be. The error is running out of memory.
pub fn request_text(alloc: Global, request: &Request) -> Result<RequestText, AllocError>
    requires { can_be_told (request_of request.now) ≡ true }
    ensures path { IfOk result (λ t. IsPath (string_bytes t.target)) }
    ensures asks { IfOk result (Asks (request_of request.now)) }
{
    match request {
        Request::Get(key) => get_text(alloc, key),
        Request::List(_) => unreachable!(),
        Request::Create(kind, namespace, object) => {
            create_text(alloc, *kind, namespace.as_str(), object)
        }
        Request::Update(key, object) => update_text(alloc, key, object),
        Request::UpdateStatus(key, object) => update_status_text(alloc, key, object),
        Request::Patch(key, patch) => patch_text(alloc, key, patch),
        Request::Delete(key, options) => delete_text(alloc, key, options),
    }
}

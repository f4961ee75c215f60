//! Statuses: their codes, reasons and texts.
ghost use Rattle.std.specs.Prelude.{◌≡◌, IfOk, string_bytes, option_map, codes};
ghost use Rattle.serde_json.specs.Data.{string, no_members, member};
ghost use Rattle.serde_json.specs.View.{view};
ghost use Rattle.serde_json.specs.Written.{compact_text};
ghost use Rattle.spec_api.specs.Refusals.{code, told, details, status_body, success_body};
ghost use Rattle.spec_api.specs.Values.{with_member};
ghost use Rattle.reply.specs.Bare.{bare_body, coded_body, outcome_body};
ghost use Rattle.object_keys.specs.Faults.{refusal_of};
ghost use Rattle.object_keys.specs.Keys.{key_of};

use crate::messages::message;
use json_values::values::with_member;
use object_keys::{Fault, Key};
use serde_json::{Value, json};
use std::alloc::{AllocError, Global};

/// Returns the HTTP status code of a fault.
pub fn code(fault: &Fault) -> u16
    ensures { result ≡ code (refusal_of fault.now) }
{
    match fault {
        Fault::BadRequest(_) => 400,
        Fault::NotFound(_) | Fault::NoSuchPath => 404,
        Fault::MethodNotAllowed => 405,
        Fault::AlreadyExists(_) | Fault::Conflict(_, _) => 409,
        Fault::Expired { .. } => 410,
        Fault::LengthRequired => 411,
        Fault::TooLarge => 413,
        Fault::UnsupportedMediaType => 415,
        Fault::Invalid(_, _) => 422,
        Fault::NoMemory => 503,
        Fault::TooNew { .. } => 504,
        Fault::StorageFull => 507,
    }
}

/// Returns the reason, a word for programs.
fn reason(fault: &Fault) -> &'static str
    ensures { result.now ≡ (told (refusal_of fault.now)).reason }
{
    match fault {
        Fault::BadRequest(_) => "BadRequest",
        Fault::NotFound(_) | Fault::NoSuchPath => "NotFound",
        Fault::MethodNotAllowed => "MethodNotAllowed",
        Fault::AlreadyExists(_) => "AlreadyExists",
        Fault::Conflict(_, _) => "Conflict",
        Fault::Expired { .. } => "Expired",
        Fault::LengthRequired => "LengthRequired",
        Fault::TooLarge => "RequestEntityTooLarge",
        Fault::UnsupportedMediaType => "UnsupportedMediaType",
        Fault::Invalid(_, _) => "Invalid",
        Fault::NoMemory => "ServiceUnavailable",
        Fault::TooNew { .. } => "Timeout",
        Fault::StorageFull => "StorageFull",
    }
}

/// Returns the key that the details of a fault name, if it has details.
fn about(fault: &Fault) -> Option<&Key>
    ensures { option_map (λ key. key_of key.now) result ≡ (told (refusal_of fault.now)).about }
{
    match fault {
        Fault::NotFound(key) => Some(key),
        Fault::AlreadyExists(key) => Some(key),
        Fault::Conflict(key, _) => Some(key),
        _ => None,
    }
}

/// Returns the value with a text at the member `name`, where it is an object.
fn with_text(alloc: Global, value: Value, name: &str, text: &str) -> Result<Value, AllocError>
    ensures { IfOk result (λ v. view v ≡ with_member name.now (string text.now) (view value)) }
{
    with_member(alloc, value, name, Value::try_from_str(alloc, text)?)
}

/// Returns the details that name an object.
fn details(alloc: Global, key: &Key) -> Result<Value, AllocError>
    ensures { IfOk result (λ value. view value ≡ details (key_of key.now) no_members) }
{
    let named = json!(in alloc; {"kind": key.kind.plural(), "name": key.name.as_str()})?;
    let group = key.kind.group_name();
    if group.is_empty() {
        return Ok(named);
    }
    with_text(alloc, named, "group", group)
}

/// Returns the details that name an object and its uid.
fn details_with_uid(alloc: Global, key: &Key, uid: &str) -> Result<Value, AllocError>
    ensures { IfOk result (λ value. view value
        ≡ details (key_of key.now) (member (codes "uid") (string uid.now) no_members)) }
{
    let details = details(alloc, key)?;
    with_text(alloc, details, "uid", uid)
}

/// Returns the body of a Status that says no more than whether it is a `Success` or a `Failure`.
fn outcome_body(alloc: Global, outcome: &str) -> Result<Value, AllocError>
    ensures { IfOk result (λ value. view value ≡ outcome_body outcome.now) }
{
    json!(in alloc; {
        "apiVersion": "v1",
        "kind": "Status",
        "metadata": {},
        "status": outcome,
    })
}

/// Returns the body of a refusal with this code, without a message, a reason and details.
fn coded_body(alloc: Global, code: u16) -> Result<Value, AllocError>
    ensures { IfOk result (λ value. view value ≡ coded_body code) }
{
    let body = outcome_body(alloc, "Failure")?;
    with_member(alloc, body, "code", json!(in alloc; code)?)
}

/// Returns the body of a refusal, without details.
fn bare_body(alloc: Global, fault: &Fault) -> Result<Value, AllocError>
    ensures { IfOk result (λ value. view value ≡ bare_body (refusal_of fault.now)) }
{
    let message = message(alloc, fault)?;
    let coded = coded_body(alloc, code(fault))?;
    let told = with_text(alloc, coded, "message", message.as_str())?;
    with_text(alloc, told, "reason", reason(fault))
}

/// Returns the body of a refusal, a Status. The error is running out of memory.
pub fn body(alloc: Global, fault: &Fault) -> Result<Value, AllocError>
    ensures { IfOk result (λ value. view value ≡ status_body (refusal_of fault.now)) }
{
    let status = bare_body(alloc, fault)?;
    match about(fault) {
        Some(key) => with_member(alloc, status, "details", details(alloc, key)?),
        None => Ok(status),
    }
}

/// Returns the body of a refusal as compact JSON, a Status. The error is running out of memory.
pub fn text(alloc: Global, fault: &Fault) -> Result<String, AllocError>
    ensures { IfOk result (λ text. string_bytes text
        ≡ compact_text (status_body (refusal_of fault.now))) }
{
    let body = body(alloc, fault)?;
    body.to_string(alloc)
}

/// Returns the body of a success that answers no object.
fn success_body(alloc: Global, removed: Option<(&Key, &str)>) -> Result<Value, AllocError>
    ensures { IfOk result (λ value. view value
        ≡ success_body (option_map (λ object. (key_of object.0.now, object.1.now)) removed.entry)) }
{
    match removed {
        Some((key, uid)) => removal_body(alloc, key, uid),
        None => outcome_body(alloc, "Success"),
    }
}

/// Returns the body of a success that answers a removal, with the key and the uid of what was removed.
fn removal_body(alloc: Global, key: &Key, uid: &str) -> Result<Value, AllocError>
    ensures { IfOk result (λ value. view value ≡ success_body (Some (key_of key.now, uid.now))) }
{
    let status = outcome_body(alloc, "Success")?;
    let details = details_with_uid(alloc, key, uid)?;
    with_member(alloc, status, "details", details)
}

/// Returns the body of a success that answers no object, as compact JSON: of a removal, with the key and the uid of what was
/// removed, or of a compaction, with none. The error is running out of memory.
pub fn success_text(alloc: Global, removed: Option<(&Key, &str)>) -> Result<String, AllocError>
    ensures { IfOk result (λ text. string_bytes text
        ≡ compact_text (success_body (option_map (λ object. (key_of object.0.now, object.1.now)) removed.entry))) }
{
    let body = success_body(alloc, removed)?;
    body.to_string(alloc)
}

//! What people are told of a fault.
ghost use Rattle.std.specs.Prelude.{◌≡◌, IfOk, string_bytes};
ghost use Rattle.spec_api.specs.Refusals.{message, quoted_name};
ghost use Rattle.object_keys.specs.Faults.{refusal_of};
ghost use Rattle.object_keys.specs.Keys.{key_of};

use object_keys::{Fault, Key};
use std::alloc::{AllocError, Global};

/// Returns a resource and a name in quotes, as `configmaps "a"`. The error is running out of memory.
fn quoted_name(alloc: Global, key: &Key) -> Result<String, AllocError>
    ensures { IfOk result (λ text. string_bytes text ≡ quoted_name (key_of key.now)) }
{
    let resource = key.kind.resource();
    format!(in alloc; "{resource} \"{}\"", key.name)
}

/// Returns a sentence that tells people of the fault. The error is running out of memory.
pub fn message(alloc: Global, fault: &Fault) -> Result<String, AllocError>
    ensures { IfOk result (λ text. string_bytes text ≡ message (refusal_of fault.now)) }
{
    match fault {
        Fault::BadRequest(part) => format!(in alloc; "bad request: {}", part.text()),
        Fault::NotFound(key) => {
            let name = quoted_name(alloc, key)?;
            format!(in alloc; "{name} not found")
        }
        Fault::NoSuchPath => {
            String::from_str(alloc, "the server could not find the requested resource")
        }
        Fault::MethodNotAllowed => String::from_str(
            alloc,
            "the server does not allow this method on the requested resource",
        ),
        Fault::AlreadyExists(key) => {
            let name = quoted_name(alloc, key)?;
            format!(in alloc; "{name} already exists")
        }
        Fault::Conflict(key, mismatch) => {
            let name = quoted_name(alloc, key)?;
            format!(in alloc;
                "Operation cannot be fulfilled on {name}: {}",
                mismatch.text()
            )
        }
        Fault::Expired { asked, floor } => {
            format!(in alloc; "too old resource version: {asked} ({floor})")
        }
        Fault::LengthRequired => String::from_str(alloc, "length required"),
        Fault::TooLarge => String::from_str(alloc, "request entity too large"),
        Fault::UnsupportedMediaType => String::from_str(alloc, "unsupported media type"),
        Fault::Invalid(key, field) => {
            let name = quoted_name(alloc, key)?;
            format!(in alloc; "{name} is invalid: {}", field.text())
        }
        Fault::NoMemory => String::from_str(alloc, "no memory"),
        Fault::TooNew { asked, present } => {
            format!(in alloc; "Timeout: Too large resource version: {asked}, current: {present}")
        }
        Fault::StorageFull => String::from_str(alloc, "storage is full"),
    }
}

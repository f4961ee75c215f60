//! The status of a new object.
ghost use Rattle.std.specs.Prelude.{◌≡◌, IfOk, IfSome, option_map, false};
ghost use Rattle.serde_json.specs.View.{view};
ghost use Rattle.serde_json.specs.Written.{has_float};
ghost use Rattle.spec_api.specs.NewObjects.{first_status};
ghost use Rattle.spec_api.specs.Reading.{empty};

use json_values::values::{whole_number, with_member, with_text};
use serde_json::{Map, Value};
use spec_api::kinds::Kind;
use std::alloc::{AllocError, Global};

/// Returns an object without members.
fn empty(alloc: Global) -> Value
    ensures { view result ≡ empty }
{
    Value::Object(Map::new(alloc))
}

/// Returns the status of a new object, of a kind that has one. The error is running out of memory.
pub fn first_status(alloc: Global, kind: Kind) -> Result<Option<Value>, AllocError>
    ensures status { IfOk result (λ s. option_map view s ≡ first_status kind) }
    ensures no_float { IfOk result (λ s. IfSome s (λ v. has_float (view v) ≡ false)) }
{
    match kind {
        Kind::Pod => {
            let status = with_text(alloc, empty(alloc), "phase", "Pending")?;
            Ok(Some(status))
        }
        Kind::ReplicaSet => {
            let none = whole_number(alloc, 0)?;
            let status = with_member(alloc, empty(alloc), "replicas", none)?;
            Ok(Some(status))
        }
        _ if kind.has_status() => Ok(Some(empty(alloc))),
        _ => Ok(None),
    }
}

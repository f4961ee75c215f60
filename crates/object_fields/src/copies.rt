//! Objects made of what other objects say, and compared.
ghost use Rattle.std.specs.Prelude.{◌≡◌, IfOk, IfSome, false};
ghost use Rattle.serde_json.specs.Data.{object, no_members};
ghost use Rattle.serde_json.specs.View.{view};
ghost use Rattle.serde_json.specs.Written.{has_float};
ghost use Rattle.spec_api.specs.Replacements.{says_the_same};
ghost use Rattle.spec_api.specs.Values.{inner_of};
ghost use Rattle.object_fields.specs.Lent.{value_of};

use json_values::members::into_members;
use meta::{Kind, Object};
use serde_json::{Map, Value};
use std::alloc::{AllocError, Global};

/// Returns an object of a kind that says nothing. It takes no memory.
pub fn blank(alloc: Global, kind: Kind) -> Object
    ensures value { result.value ≡ object no_members }
    ensures kind { result.kind ≡ kind }
{
    Object::from_whole(kind, Value::Object(Map::new(alloc)))
}

/// Returns a copy of the members that were found, as an object of a kind; one that says nothing where none were. The error is
/// running out of memory.
#[tactic(auto, using(crate::proofs::NoFloats::members_have_none))]
pub fn inner(alloc: Global, kind: Kind, found: Option<&Value>) -> Result<Object, AllocError>
    requires no_float { IfSome found (λ v. has_float (view v.now) ≡ false) }
    ensures value { IfOk result (λ o. o.value ≡ object (inner_of (value_of found.entry))) }
    ensures kind { IfOk result (λ o. o.kind ≡ kind) }
{
    match found {
        Some(found) => {
            let members = into_members(alloc, found.clone()?);
            Ok(Object::from_whole(kind, Value::Object(members)))
        }
        None => Ok(blank(alloc, kind)),
    }
}

/// Returns whether two objects say the same, as their texts do. The error is running out of memory.
pub fn says_the_same(alloc: Global, one: &Object, other: &Object) -> Result<bool, AllocError>
    ensures { IfOk result (λ b. b ≡ says_the_same one.now.value other.now.value) }
{
    let one = one.text(alloc)?;
    let other = other.text(alloc)?;
    Ok(one.as_str() == other.as_str())
}

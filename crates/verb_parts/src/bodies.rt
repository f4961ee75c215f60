//! What bodies say.
ghost use Rattle.std.specs.Prelude.{◌≡◌, IfOk, IfErr, Ok};
ghost use Rattle.serde_json.specs.View.{view};
ghost use Rattle.spec_api.specs.Verbs.{object_in};
ghost use Rattle.verb_parts.specs.Bodies.{RefusesSaid};

use defaults::defaults;
use meta::Object;
use object_keys::Fault;
use serde_json::Value;
use spec_api::kinds::Kind;
use std::alloc::Global;

/// Returns a body read as an object of a kind, with the defaults of its spec. The errors are the
/// part of the request at fault, and running out of memory.
pub fn object_in(alloc: Global, kind: Kind, body: Value) -> Result<Object, Fault>
    ensures object_in { IfOk result (λ o. object_in kind (view body) ≡ Ok o.value) }
    ensures kind { IfOk result (λ o. o.kind ≡ kind) }
    ensures refused { IfErr result (RefusesSaid kind (view body)) }
{
    let object = Object::from_value(alloc, kind, body)?;
    Ok(defaults(alloc, object)?)
}

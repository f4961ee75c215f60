//! What a selector's value says.
ghost use Rattle.std.specs.Prelude.{◌≡◌, ◌&&◌, not};
ghost use Rattle.serde_json.specs.View.{view};
ghost use Rattle.serde_json.specs.Written.{has_float};
ghost use Rattle.spec_api.specs.Reading.{fits, tidied};
ghost use Rattle.spec_api.specs.SelectorValues.{requirements_in, selector_shape};
ghost use Rattle.selector.specs.Seen.{Reads, requirements_of};

use crate::faults::PartFault;
use crate::labels::Requirement;
use crate::requirement_values::requirements_in;
use json_values::values::has_float;
use meta::reading::{fits, tidy};
use serde_json::Value;
use spec_api::schemas::{Schema, Shape};
use std::alloc::Global;

/// What a selector has to be.
const SHAPE: Shape = Shape::Object(Schema::Selector);

/// Returns whether each number in a selector's value is whole, and its known members have their types.
pub(crate) fn is_whole(value: &Value) -> bool
    ensures { result ≡ (not (has_float (view value.now)) && fits selector_shape (view value.now)) }
{
    !has_float(value) && fits(value, SHAPE)
}

/// Returns the requirements of such a value, of which the members that are null count as absent.
pub(crate) fn requirements(alloc: Global, value: &Value) -> Result<Vec<Requirement>, PartFault>
    ensures { Reads (λ v. requirements_of v.items) result (requirements_in (tidied selector_shape (view value.now))) }
{
    let said = tidy(value.clone()?, SHAPE)?;
    requirements_in(alloc, &said)
}

//! The parts of an object that its kind gives a meaning to.
ghost use Rattle.std.specs.Prelude.{◌≡◌, IfSome, false};
ghost use Rattle.serde_json.specs.View.{view};
ghost use Rattle.serde_json.specs.Written.{has_float};
ghost use Rattle.spec_api.specs.Checks.{in_spec, in_status};
ghost use Rattle.spec_api.specs.Metadata.{text_at, truth_at};
ghost use Rattle.spec_api.specs.SelectorValues.{text_in};
ghost use Rattle.object_fields.specs.Lent.{text_of, value_of};

use meta::Object;
use serde_json::Value;

/// Returns the member `name` of an object's `spec`. It takes no memory.
pub fn in_spec<'a>(object: &'a Object, name: &str) -> Option<&'a Value>
    ensures member { value_of result ≡ in_spec name.now object.now.value }
    ensures no_float { IfSome result (λ v. has_float (view v.now) ≡ false) }
{
    object.member("spec")?.get(name)
}

/// Returns the member `name` of an object's `status`. It takes no memory.
pub fn in_status<'a>(object: &'a Object, name: &str) -> Option<&'a Value>
    ensures { value_of result ≡ in_status name.now object.now.value }
{
    object.member("status")?.get(name)
}

/// Returns the text at the member `name` of a value. It takes no memory.
pub fn text_at<'a>(value: &'a Value, name: &str) -> Option<&'a str>
    ensures { text_of result ≡ text_at name.now (view value.now) }
{
    value.get(name)?.as_str()
}

/// Returns the truth value at the member `name` of a value; false where none is there. It takes no memory.
pub fn truth_at(value: &Value, name: &str) -> bool
    ensures { result ≡ truth_at name.now (view value.now) }
{
    match value.get(name) {
        Some(found) => found.as_bool().unwrap_or(false),
        None => false,
    }
}

/// Returns a text; the empty one where none is there. It takes no memory.
pub fn text_in<'a>(found: Option<&'a Value>) -> &'a str
    ensures { result.now ≡ text_in (value_of found.entry) }
{
    match found {
        Some(value) => value.as_str().unwrap_or(""),
        None => "",
    }
}

//! Whether finalizers may be called so, and whether an object that is being deleted gets no more of them.
ghost use Rattle.std.specs.Prelude.{◌≡◌, codes, option_map, option_and_then};
ghost use Rattle.std.specs.Str.{bytes_eq};
ghost use Rattle.serde_json.specs.Find.{as_array};
ghost use Rattle.serde_json.specs.View.{view, items_view};
ghost use Rattle.spec_api.specs.Checks.{text_is, has_text, is_finalizer, finalizers, are_finalizers_valid, adds_no_finalizer};
ghost use Rattle.spec_api.specs.Metadata.{metadata};
ghost use Rattle.spec_api.specs.SelectorValues.{all_items};

use meta::Object;
use meta::finalizers::has_text;
use serde_json::Value;

/// The greatest length of a finalizer, in bytes.
const LONGEST: usize = 253;

fn is_finalizer(value: &Value) -> bool
    ensures { result ≡ text_is is_finalizer (view value.now) }
{
    match value.as_str() {
        Some(text) => 0 < text.len() && text.len() <= LONGEST,
        None => false,
    }
}

fn all_are_finalizers(items: &[Value]) -> bool
    ensures { result ≡ all_items (text_is is_finalizer) (items_view items.now) }
{
    for item in items {
        if !is_finalizer(item) {
            return false;
        }
    }
    true
}

/// Returns whether each finalizer is a name that a finalizer may have.
pub(crate) fn are_finalizers_valid(object: &Object) -> bool
    ensures { result ≡ are_finalizers_valid object.now.value }
{
    all_are_finalizers(object.finalizers())
}

fn is_held(value: &Value, stored: &Object) -> bool
    ensures { result ≡ text_is (has_text (finalizers stored.now.value)) (view value.now) }
{
    match value.as_str() {
        Some(text) => has_text(stored.finalizers(), text),
        None => false,
    }
}

fn all_are_held(items: &[Value], stored: &Object) -> bool
    ensures { result ≡ all_items (text_is (has_text (finalizers stored.now.value))) (items_view items.now) }
{
    for item in items {
        if !is_held(item, stored) {
            return false;
        }
    }
    true
}

/// Returns whether an object has no finalizer that the stored one, if it is being deleted, lacks. It looks through the stored
/// ones for each: an object has a handful.
pub(crate) fn adds_no_finalizer(stored: &Object, object: &Object) -> bool
    ensures { result ≡ adds_no_finalizer stored.now.value object.now.value }
{
    if !stored.is_being_deleted() {
        return true;
    }
    all_are_held(object.finalizers(), stored)
}

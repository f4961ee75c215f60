//! Finalizers, and texts in lists.
ghost use Rattle.std.specs.Prelude.{◌≡◌, false};
ghost use Rattle.std.specs.Str.{bytes_eq};
ghost use Rattle.serde_json.specs.View.{view, items_view};
ghost use Rattle.serde_json.specs.Written.{items_have_float};
ghost use Rattle.spec_api.specs.Checks.{text_is, has_text, finalizers};

use crate::objects::Object;
use serde_json::Value;

impl Object {
    /// Returns the finalizers: each a text that keeps the object until whoever put it there removes it (Kubernetes,
    /// Finalizers).
    pub fn finalizers(&self) -> &[Value]
        ensures items { items_view result.now ≡ finalizers self.now.value }
        ensures no_float { items_have_float (items_view result.now) ≡ false }
    {
        match self.metadata_member("finalizers") {
            Some(Value::Array(items)) => items.as_slice(),
            _ => &[],
        }
    }
}

/// Returns whether a value is this text.
pub fn is_text(value: &Value, text: &str) -> bool
    ensures { result ≡ text_is (bytes_eq text.now) (view value.now) }
{
    match value.as_str() {
        Some(found) => text == found,
        None => false,
    }
}

/// Returns whether one of the items is this text.
pub fn has_text(items: &[Value], text: &str) -> bool
    ensures { result ≡ has_text (items_view items.now) text.now }
{
    for item in items {
        if is_text(item, text) {
            return true;
        }
    }
    false
}

//! Whether labels have keys and values that labels may have.
ghost use Rattle.std.specs.Prelude.{◌≡◌};
ghost use Rattle.serde_json.specs.View.{view, members_view};
ghost use Rattle.spec_api.specs.Checks.{text_is, are_labels};
ghost use Rattle.spec_api.specs.Labels.{is_label_value};
ghost use Rattle.selector.specs.Seen.{labels_in};

use metadata_values::{is_label_key, is_label_value};
use serde_json::{Map, Value};

fn is_value(value: &Value) -> bool
    ensures { result ≡ text_is is_label_value (view value.now) }
{
    match value.as_str() {
        Some(text) => is_label_value(text),
        None => false,
    }
}

fn all_are_labels(members: &Map<String, Value>) -> bool
    ensures { result ≡ are_labels (members_view members.now.entries) }
{
    for (key, value) in members.iter() {
        if !is_label_key(key.as_str()) {
            return false;
        }
        if !is_value(value) {
            return false;
        }
    }
    true
}

/// Returns whether the value of a `metadata.labels` has valid labels only.
pub(crate) fn are_labels(labels: Option<&Value>) -> bool
    ensures { result ≡ are_labels (labels_in labels.entry) }
{
    match labels {
        Some(value) => match value.as_object() {
            Some(members) => all_are_labels(members),
            None => true,
        },
        None => true,
    }
}

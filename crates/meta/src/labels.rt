//! An object's labels as they are stored: a list, which takes less memory than a map.
ghost use Rattle.std.specs.Prelude.{◌≡◌, IfOk, map, option_map};
ghost use Rattle.serde_json.specs.Find.{as_str};
ghost use Rattle.serde_json.specs.View.{view, members_view};
ghost use Rattle.meta.specs.Labels.{labels_in, label_of, label_text};

use serde_json::{Map, Value};
use std::alloc::{AllocError, Global};

/// A label: its name, and its text, which is there in each label that a request can give.
#[derive(Drop)]
pub(crate) struct Label {
    name: String,
    text: Option<String>,
}

/// Returns the members as labels. The error is running out of memory.
pub(crate) fn labels_in(
    alloc: Global,
    members: &Map<String, Value>,
) -> Result<Vec<Label>, AllocError>
    ensures { IfOk result (λ v. map label_of v.items ≡ labels_in (members_view members.now.entries)) }
{
    let mut labels = Vec::with_capacity(alloc, members.len())?;
    for (name, value) in members.iter() {
        labels.push(as_label(alloc, name.as_str(), value)?)?;
    }
    Ok(labels)
}

/// Returns a member as a label.
fn as_label(alloc: Global, name: &str, value: &Value) -> Result<Label, AllocError>
    ensures { IfOk result (λ l. label_of l ≡ (name.now, as_str (view value.now))) }
{
    let text = match value.as_str() {
        Some(text) => Some(String::from_str(alloc, text)?),
        None => None,
    };
    Ok(Label {
        name: String::from_str(alloc, name)?,
        text,
    })
}

/// Returns the text of the label of a name.
pub(crate) fn label_text<'a>(labels: &'a [Label], name: &str) -> Option<&'a str>
    ensures { option_map (λ s. s.now) result ≡ label_text name.now (map label_of labels.now) }
{
    for label in labels {
        if label.name.as_str() == name {
            return label.text();
        }
    }
    None
}

impl Label {
    fn text(&self) -> Option<&str>
        ensures { option_map (λ s. s.now) result ≡ (label_of self.now).1 }
    {
        match &self.text {
            Some(text) => Some(text.as_str()),
            None => None,
        }
    }
}

//! One requirement of labels.
ghost use Rattle.std.specs.Prelude.{◌≡◌, IfOk, option_map};
ghost use Rattle.spec_api.specs.Labels.{label_at};
ghost use Rattle.spec_api.specs.Selectors.{is_among, holds, meets};
ghost use Rattle.selector.specs.Seen.{now, texts_of, requirement_of, labels_in};

use serde_json::Value;
use spec_api::selectors::Operator;
use std::alloc::{AllocError, Global};

/// What a selector says of the label under a key (Kubernetes, Labels and Selectors).
pub struct Requirement {
    pub key: String,
    pub operator: Operator,
    /// What the label's value is compared with; none for `Exists` and `DoesNotExist`.
    pub values: Vec<String>,
}

impl Drop for Requirement {
    // Called where one is dropped; a derived drop is proved anew at each such place.
    fn drop(self) {
        let Requirement {
            key: _key,
            operator: _operator,
            values: _values,
        } = self;
    }
}

fn is_among(values: &Vec<String>, text: &str) -> bool
    ensures { result ≡ is_among (texts_of values.now.items) text.now }
{
    for value in values {
        if value.as_str() == text {
            return true;
        }
    }
    false
}

/// Returns the value of the label with this key.
fn label_at<'l>(labels: Option<&'l Value>, key: &str) -> Option<&'l str>
    ensures { option_map now result ≡ label_at key.now (labels_in labels.entry) }
{
    match labels {
        Some(labels) => match labels.get(key) {
            Some(found) => found.as_str(),
            None => None,
        },
        None => None,
    }
}

fn copies(alloc: Global, texts: &[String]) -> Result<Vec<String>, AllocError>
    ensures { IfOk result (λ v. texts_of v.items ≡ texts_of texts.now) }
{
    let mut copies = Vec::with_capacity(alloc, texts.len())?;
    for text in texts {
        copies.push(text.clone()?)?;
    }
    Ok(copies)
}

impl Requirement {
    /// Returns a copy of the requirement. The error is running out of memory.
    pub fn try_copy(&self, alloc: Global) -> Result<Requirement, AllocError>
        ensures { IfOk result (λ r. requirement_of r ≡ requirement_of self.now) }
    {
        Ok(Requirement {
            key: self.key.clone()?,
            operator: self.operator,
            values: copies(alloc, &self.values)?,
        })
    }

    /// Returns whether the value of the label under its key, where there is one, meets it. It takes no memory.
    pub fn holds(&self, found: Option<&str>) -> bool
        ensures { result ≡ holds self.now.operator (texts_of self.now.values.items) (option_map now found.entry) }
    {
        match self.operator {
            Operator::In => match found {
                Some(text) => is_among(&self.values, text),
                None => false,
            },
            Operator::NotIn => match found {
                Some(text) => !is_among(&self.values, text),
                None => true,
            },
            Operator::Exists => found.is_some(),
            Operator::DoesNotExist => found.is_none(),
        }
    }

    /// Returns whether labels, the value of a `metadata.labels`, meet it. It takes no memory.
    pub fn is_met(&self, labels: Option<&Value>) -> bool
        ensures { result ≡ meets (requirement_of self.now) (labels_in labels.entry) }
    {
        self.holds(label_at(labels, self.key.as_str()))
    }
}

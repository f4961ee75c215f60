//! Selectors of labels.
ghost use Rattle.std.specs.Prelude.{◌≡◌, [], Some, Ok, IfOk, IfErr, length, ◌==◌};
ghost use Rattle.serde_json.specs.View.{view};
ghost use Rattle.spec_api.specs.Metadata.{labels_of};
ghost use Rattle.spec_api.specs.SelectorTexts.{selector_of_text};
ghost use Rattle.spec_api.specs.SelectorValues.{selector_of_value};
ghost use Rattle.spec_api.specs.Selectors.{meets, meets_all};
ghost use Rattle.selector.specs.Seen.{RefusesText, RefusesValue, labels_in, requirement_of, requirements_of};

use crate::faults::{PartFault, SelectorFault};
use crate::labels::Requirement;
use crate::texts::requirements;
use crate::values;
use meta::stored::StoredObject;
use serde_json::Value;
use std::alloc::{AllocError, Global};
use std::marker::Model;

/// Requirements of labels, all of which must hold (Kubernetes, Labels and Selectors).
pub struct Selector {
    requirements: Vec<Requirement>,
}

impl Drop for Selector {
    // Called where one is dropped; a derived drop is proved anew at each such place.
    fn drop(self) {
        let Selector {
            requirements: _requirements,
        } = self;
    }
}

impl Model for Selector {
    ghost use Rattle.std.specs.Prelude.{List};
    ghost use Rattle.model_encodings.specs.SelectorCodes.{coded_requirements};
    ghost use Rattle.spec_api.specs.Selectors as meaning;
    ghost use Rattle.selector.specs.Seen.{requirements_of};

    ghost Value = { List meaning.Requirement };

    ghost coded = { coded_requirements };

    ghost view = { λ s. requirements_of s.requirements.items };
}

/// Returns whether labels meet each requirement.
fn all_are_met(requirements: &Vec<Requirement>, labels: Option<&Value>) -> bool
    ensures { result ≡ meets_all (requirements_of requirements.now.items) (labels_in labels.entry) }
{
    for requirement in requirements {
        if !requirement.is_met(labels) {
            return false;
        }
    }
    true
}

/// Returns whether an object's labels meet a requirement.
fn is_met_by(requirement: &Requirement, object: &StoredObject) -> bool
    ensures { result ≡ meets (requirement_of requirement.now) (labels_of object.now.value) }
{
    requirement.holds(object.label(requirement.key.as_str()))
}

/// Returns whether an object's labels meet each requirement.
fn all_are_met_by(requirements: &Vec<Requirement>, object: &StoredObject) -> bool
    ensures { result ≡ meets_all (requirements_of requirements.now.items) (labels_of object.now.value) }
{
    for requirement in requirements {
        if !is_met_by(requirement, object) {
            return false;
        }
    }
    true
}

fn copies(alloc: Global, requirements: &[Requirement]) -> Result<Vec<Requirement>, AllocError>
    ensures { IfOk result (λ v. requirements_of v.items ≡ requirements_of requirements.now) }
{
    let mut copies = Vec::with_capacity(alloc, requirements.len())?;
    for requirement in requirements {
        copies.push(requirement.try_copy(alloc)?)?;
    }
    Ok(copies)
}

impl Selector {
    /// Returns the selector that matches all. It takes no memory.
    pub fn everything(alloc: Global) -> Selector
        ensures { result ≡ [] }
    {
        Selector {
            requirements: Vec::new(alloc),
        }
    }

    /// Reads a text, as the query parameter `labelSelector` has it. The empty text matches all. The errors are a text of
    /// another form, and running out of memory.
    pub fn parse(alloc: Global, text: &str) -> Result<Selector, SelectorFault>
        ensures read { IfOk result (λ s. selector_of_text text.now ≡ Some s) }
        ensures refused { IfErr result (RefusesText (selector_of_text text.now)) }
    {
        if text.is_empty() {
            return Ok(Selector::everything(alloc));
        }
        match requirements(alloc, text.as_bytes()) {
            Ok(requirements) => Ok(Selector { requirements }),
            Err(PartFault::Refused) => Err(SelectorFault::Malformed),
            Err(PartFault::NoMemory) => Err(SelectorFault::NoMemory),
        }
    }

    /// Reads a value, as a `spec.selector` is: a member that is null counts as absent. An empty object matches all. The errors
    /// are a number that is no whole number of 64 bits or a member of a wrong type; a key, an operator or values that do not
    /// go; and running out of memory.
    pub fn of_value(alloc: Global, value: &Value) -> Result<Selector, SelectorFault>
        ensures read { IfOk result (λ s. selector_of_value (view value.now) ≡ Ok s) }
        ensures refused { IfErr result (RefusesValue (selector_of_value (view value.now))) }
    {
        if !values::is_whole(value) {
            return Err(SelectorFault::Malformed);
        }
        match values::requirements(alloc, value) {
            Ok(requirements) => Ok(Selector { requirements }),
            Err(PartFault::Refused) => Err(SelectorFault::Invalid),
            Err(PartFault::NoMemory) => Err(SelectorFault::NoMemory),
        }
    }

    /// Returns a copy of the selector. The error is running out of memory.
    pub fn try_copy(&self, alloc: Global) -> Result<Selector, AllocError>
        ensures { IfOk result (λ s. s ≡ self.now) }
    {
        Ok(Selector {
            requirements: copies(alloc, &self.requirements)?,
        })
    }

    /// Returns whether it has no requirement, and so matches all.
    pub fn is_empty(&self) -> bool
        ensures { result ≡ (length self.now == 0) }
    {
        self.requirements.is_empty()
    }

    /// Returns whether it selects what has these labels, the value of a `metadata.labels`. It takes no memory.
    pub fn matches(&self, labels: Option<&Value>) -> bool
        ensures { result ≡ meets_all self.now (labels_in labels.entry) }
    {
        all_are_met(&self.requirements, labels)
    }

    /// Returns whether it selects an object. It takes no memory.
    pub fn selects(&self, object: &StoredObject) -> bool
        ensures { result ≡ meets_all self.now (labels_of object.now.value) }
    {
        all_are_met_by(&self.requirements, object)
    }
}

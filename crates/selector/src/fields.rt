//! Selectors of fields.
ghost use Rattle.std.specs.Prelude.{◌≡◌, [], Some, IfOk, IfErr, length, ◌==◌};
ghost use Rattle.std.specs.List.{list_any, slice_split};
ghost use Rattle.spec_api.specs.SelectorFields.{field_meets, field_named, field_requirement, fields_meet, is_wanted, fields_of_text};
ghost use Rattle.spec_api.specs.SelectorTexts.{is_blank, is_comma};
ghost use Rattle.spec_api.specs.Selectors.{each_read};
ghost use Rattle.selector.specs.Seen.{Reads, RefusesText, field_requirement_of, field_requirements_of};

use crate::cuts::{cut_at, is_blank};
use crate::faults::{PartFault, SelectorFault};
use crate::texts::compare;
use spec_api::selectors::{Operator, SelectableField};
use std::alloc::{AllocError, Global};
use std::marker::Model;

/// A requirement of a field. A value can be any bytes, so it is stored as they are.
struct FieldRequirement {
    field: SelectableField,
    wanted: bool,
    value: Vec<u8>,
}

impl Drop for FieldRequirement {
    // Called where one is dropped; a derived drop is proved anew at each such place.
    fn drop(self) {
        let FieldRequirement {
            field: _field,
            wanted: _wanted,
            value: _value,
        } = self;
    }
}

/// Requirements of fields, all of which must hold (Kubernetes, Field Selectors).
#[derive(Drop)]
pub struct Fields {
    requirements: Vec<FieldRequirement>,
}

impl Model for Fields {
    ghost use Rattle.std.specs.Prelude.{List};
    ghost use Rattle.model_encodings.specs.SelectorCodes.{coded_field_requirements};
    ghost use Rattle.spec_api.specs.SelectorFields as meaning;
    ghost use Rattle.selector.specs.Seen.{field_requirements_of};

    ghost Value = { List meaning.FieldRequirement };

    ghost coded = { coded_field_requirements };

    ghost view = { λ s. field_requirements_of s.requirements.items };
}

fn field_named(text: &[u8]) -> Option<SelectableField>
    ensures { result ≡ field_named text.now }
{
    if text == b"metadata.name".as_slice() {
        Some(SelectableField::Name)
    } else if text == b"metadata.namespace".as_slice() {
        Some(SelectableField::Namespace)
    } else {
        None
    }
}

fn has_blank(text: &[u8]) -> bool
    ensures { result ≡ list_any is_blank text.now }
{
    text.iter().any(|byte| is_blank(*byte))
}

fn is_wanted(operator: Operator) -> bool
    ensures { result ≡ is_wanted operator }
{
    match operator {
        Operator::In => true,
        Operator::NotIn => false,
        Operator::Exists => false,
        Operator::DoesNotExist => false,
    }
}

fn field_requirement(alloc: Global, part: &[u8]) -> Result<FieldRequirement, PartFault>
    ensures { Reads field_requirement_of result (field_requirement part.now) }
{
    match cut_at(part, b'=') {
        Some((left, right)) => {
            if has_blank(part) {
                return Err(PartFault::Refused);
            }
            let (name, operator, value) = compare(left, right);
            match field_named(name) {
                Some(field) => {
                    let value = Vec::from_slice(alloc, value)?;
                    Ok(FieldRequirement {
                        field,
                        wanted: is_wanted(operator),
                        value,
                    })
                }
                None => Err(PartFault::Refused),
            }
        }
        None => Err(PartFault::Refused),
    }
}

/// Returns the requirements of a text that is not empty.
fn field_requirements(alloc: Global, text: &[u8]) -> Result<Vec<FieldRequirement>, PartFault>
    ensures { Reads (λ v. field_requirements_of v.items) result (each_read field_requirement (slice_split is_comma text.now)) }
{
    let mut found = Vec::new(alloc);
    let mut rest = text;
    while let Some((part, more)) = cut_at(rest, b',') {
        let read = field_requirement(alloc, part)?;
        found.push(read)?;
        rest = more;
    }
    let read = field_requirement(alloc, rest)?;
    found.push(read)?;
    Ok(found)
}

impl FieldRequirement {
    fn try_copy(&self, alloc: Global) -> Result<FieldRequirement, AllocError>
        ensures { IfOk result (λ r. field_requirement_of r ≡ field_requirement_of self.now) }
    {
        Ok(FieldRequirement {
            field: self.field,
            wanted: self.wanted,
            value: Vec::from_slice(alloc, &self.value)?,
        })
    }

    fn is_met(&self, name: &str, namespace: &str) -> bool
        ensures { result ≡ field_meets (field_requirement_of self.now) name.now namespace.now }
    {
        let same = match self.field {
            SelectableField::Name => self.value.as_slice() == name.as_bytes(),
            SelectableField::Namespace => self.value.as_slice() == namespace.as_bytes(),
        };
        if self.wanted { same } else { !same }
    }
}

/// Returns whether a name and a namespace meet each requirement.
fn all_are_met(requirements: &Vec<FieldRequirement>, name: &str, namespace: &str) -> bool
    ensures { result ≡ fields_meet (field_requirements_of requirements.now.items) name.now namespace.now }
{
    for requirement in requirements {
        if !requirement.is_met(name, namespace) {
            return false;
        }
    }
    true
}

fn copies(
    alloc: Global,
    requirements: &[FieldRequirement],
) -> Result<Vec<FieldRequirement>, AllocError>
    ensures { IfOk result (λ v. field_requirements_of v.items ≡ field_requirements_of requirements.now) }
{
    let mut copies = Vec::with_capacity(alloc, requirements.len())?;
    for requirement in requirements {
        copies.push(requirement.try_copy(alloc)?)?;
    }
    Ok(copies)
}

impl Fields {
    /// Returns the selector that matches all. It takes no memory.
    pub fn everything(alloc: Global) -> Fields
        ensures { result ≡ [] }
    {
        Fields {
            requirements: Vec::new(alloc),
        }
    }

    /// Reads a text, as the query parameter `fieldSelector` has it. The empty text matches all. The errors are a text of
    /// another form, and running out of memory.
    pub fn parse(alloc: Global, text: &str) -> Result<Fields, SelectorFault>
        ensures read { IfOk result (λ s. fields_of_text text.now ≡ Some s) }
        ensures refused { IfErr result (RefusesText (fields_of_text text.now)) }
    {
        if text.is_empty() {
            return Ok(Fields::everything(alloc));
        }
        match field_requirements(alloc, text.as_bytes()) {
            Ok(requirements) => Ok(Fields { requirements }),
            Err(PartFault::Refused) => Err(SelectorFault::Malformed),
            Err(PartFault::NoMemory) => Err(SelectorFault::NoMemory),
        }
    }

    /// Returns a copy of the selector. The error is running out of memory.
    pub fn try_copy(&self, alloc: Global) -> Result<Fields, AllocError>
        ensures { IfOk result (λ s. s ≡ self.now) }
    {
        Ok(Fields {
            requirements: copies(alloc, &self.requirements)?,
        })
    }

    /// Returns whether it has no requirement, and so matches all.
    pub fn is_empty(&self) -> bool
        ensures { result ≡ (length self.now == 0) }
    {
        self.requirements.is_empty()
    }

    /// Returns whether it selects what has this name, in this namespace. It takes no memory.
    pub fn matches(&self, name: &str, namespace: &str) -> bool
        ensures { result ≡ fields_meet self.now name.now namespace.now }
    {
        all_are_met(&self.requirements, name, namespace)
    }
}

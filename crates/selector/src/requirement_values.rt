//! What a selector's value says.
ghost use Rattle.std.specs.Prelude.{◌≡◌, Some, None, [], ◌∷◌, if◌then◌else◌};
ghost use Rattle.serde_json.specs.View.{view, items_view, members_view};
ghost use Rattle.spec_api.specs.SelectorValues.{expression_requirement, expression_requirements, fitting, item_values, items_in, label_requirements, operator_named, requirements_in, text_in};
ghost use Rattle.spec_api.specs.Selectors.{each_read, label_key, label_value, requiring};
ghost use Rattle.spec_api.specs.Values.{inner_of};
ghost use Rattle.selector.specs.Seen.{Reads, found_value, requirement_of, requirements_of, texts_of};

use crate::faults::PartFault;
use crate::labels::Requirement;
use crate::owned::{own_key, own_value};
use crate::texts::single;
use serde_json::{Map, Value};
use spec_api::selectors::Operator;
use std::alloc::Global;

/// Returns a text, or the empty one where none is.
fn text_in<'v>(found: Option<&'v Value>) -> &'v str
    ensures { result.now ≡ text_in (found_value found.entry) }
{
    match found {
        Some(value) => match value.as_str() {
            Some(text) => text,
            None => "",
        },
        None => "",
    }
}

fn operator_named(word: &str) -> Option<Operator>
    ensures { result ≡ operator_named word.now }
{
    if word == "In" {
        Some(Operator::In)
    } else if word == "NotIn" {
        Some(Operator::NotIn)
    } else if word == "Exists" {
        Some(Operator::Exists)
    } else if word == "DoesNotExist" {
        Some(Operator::DoesNotExist)
    } else {
        None
    }
}

/// Returns the requirement of one of `matchLabels`.
fn label_requirement(alloc: Global, key: &str, value: &Value) -> Result<Requirement, PartFault>
    ensures { Reads requirement_of result (requiring (label_key key.now) Operator.In (each_read label_value (text_in (Some (view value.now)) ∷ []))) }
{
    single(
        alloc,
        key.as_bytes(),
        Operator::In,
        text_in(Some(value)).as_bytes(),
    )
}

fn label_requirements(
    alloc: Global,
    members: &Map<String, Value>,
) -> Result<Vec<Requirement>, PartFault>
    ensures { Reads (λ v. requirements_of v.items) result (label_requirements (members_view members.now.entries)) }
{
    let mut found = Vec::new(alloc);
    for (key, member) in members.iter() {
        let read = label_requirement(alloc, key.as_str(), member)?;
        found.push(read)?;
    }
    Ok(found)
}

fn item_values(alloc: Global, items: &Vec<Value>) -> Result<Vec<String>, PartFault>
    ensures { Reads (λ v. texts_of v.items) result (item_values (items_view items.now.items)) }
{
    let mut values = Vec::new(alloc);
    for item in items {
        let value = own_value(alloc, text_in(Some(item)).as_bytes())?;
        values.push(value)?;
    }
    Ok(values)
}

fn listed(alloc: Global, found: Option<&Value>) -> Result<Vec<String>, PartFault>
    ensures { Reads (λ v. texts_of v.items) result (item_values (items_in (found_value found.entry))) }
{
    match found {
        Some(value) => match value.as_array() {
            Some(items) => item_values(alloc, items),
            None => Ok(Vec::new(alloc)),
        },
        None => Ok(Vec::new(alloc)),
    }
}

/// Returns whether values go with an operator: some, or none.
fn goes_with(operator: Operator, values: &Vec<String>) -> bool
    ensures { fitting operator (texts_of values.now.items) ≡ (if result then Some (texts_of values.now.items) else None) }
{
    match operator {
        Operator::In => !values.is_empty(),
        Operator::NotIn => !values.is_empty(),
        Operator::Exists => values.is_empty(),
        Operator::DoesNotExist => values.is_empty(),
    }
}

fn fitting(operator: Operator, values: Vec<String>) -> Result<Vec<String>, PartFault>
    ensures { Reads (λ v. texts_of v.items) result (fitting operator (texts_of values.items)) }
{
    if !goes_with(operator, &values) {
        return Err(PartFault::Refused);
    }
    Ok(values)
}

/// Returns one of `matchExpressions`.
fn expression(alloc: Global, value: &Value) -> Result<Requirement, PartFault>
    ensures { Reads requirement_of result (expression_requirement (view value.now)) }
{
    match operator_named(text_in(value.get("operator"))) {
        Some(operator) => {
            let key = own_key(alloc, text_in(value.get("key")).as_bytes())?;
            let values = listed(alloc, value.get("values"))?;
            let values = fitting(operator, values)?;
            Ok(Requirement {
                key,
                operator,
                values,
            })
        }
        None => Err(PartFault::Refused),
    }
}

fn expressions(alloc: Global, items: &Vec<Value>) -> Result<Vec<Requirement>, PartFault>
    ensures { Reads (λ v. requirements_of v.items) result (expression_requirements (items_view items.now.items)) }
{
    let mut found = Vec::new(alloc);
    for item in items {
        let read = expression(alloc, item)?;
        found.push(read)?;
    }
    Ok(found)
}

fn labels_in(alloc: Global, found: Option<&Value>) -> Result<Vec<Requirement>, PartFault>
    ensures { Reads (λ v. requirements_of v.items) result (label_requirements (inner_of (found_value found.entry))) }
{
    match found {
        Some(value) => match value.as_object() {
            Some(members) => label_requirements(alloc, members),
            None => Ok(Vec::new(alloc)),
        },
        None => Ok(Vec::new(alloc)),
    }
}

fn expressions_in(alloc: Global, found: Option<&Value>) -> Result<Vec<Requirement>, PartFault>
    ensures { Reads (λ v. requirements_of v.items) result (expression_requirements (items_in (found_value found.entry))) }
{
    match found {
        Some(value) => match value.as_array() {
            Some(items) => expressions(alloc, items),
            None => Ok(Vec::new(alloc)),
        },
        None => Ok(Vec::new(alloc)),
    }
}

/// Returns the requirements of a value without null members, whose known members have their types.
pub fn requirements_in(alloc: Global, value: &Value) -> Result<Vec<Requirement>, PartFault>
    ensures { Reads (λ v. requirements_of v.items) result (requirements_in (view value.now)) }
{
    let mut found = labels_in(alloc, value.get("matchLabels"))?;
    let mut others = expressions_in(alloc, value.get("matchExpressions"))?;
    found.append(&mut others)?;
    Ok(found)
}

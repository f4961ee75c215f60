//! What is asked of JSON values and done to them, each by its meaning as data.
ghost use Rattle.std.specs.Prelude.{◌≡◌, ◌≤◌, ◌↔◌, IfOk, IsTrue};
ghost use Rattle.serde_json.specs.Data.{string, object, no_members, depth, items_depth, members_depth};
ghost use Rattle.serde_json.specs.View.{view, items_view, members_view};
ghost use Rattle.serde_json.specs.Written.{has_float, items_have_float, members_have_float};
ghost use Rattle.spec_api.specs.Defaults.{unsigned_value};
ghost use Rattle.spec_api.specs.Values.{with_member, with_default};

use serde_json::{Map, Value, json};
use std::alloc::{AllocError, Global};

/// Returns a whole number as a value.
pub fn whole_number(alloc: Global, number: u64) -> Result<Value, AllocError>
    ensures { IfOk result (λ v. view v ≡ unsigned_value number) }
{
    json!(in alloc; number)
}

/// Returns the value with `inner` at the member `name`, where it is an object; another value stays.
pub fn with_member(
    alloc: Global,
    value: Value,
    name: &str,
    inner: Value,
) -> Result<Value, AllocError>
    ensures { IfOk result (λ v. view v ≡ with_member name.now (view inner) (view value)) }
{
    match value {
        Value::Object(members) => {
            let mut members = members;
            serde_json::put(&mut members, alloc, name, inner)?;
            Ok(Value::Object(members))
        }
        other => Ok(other),
    }
}

/// Returns whether a number in the value is stored as a float.
#[cycle(floats)]
pub fn has_float(value: &Value) -> bool
    ensures { result ≡ has_float (view value.now) }
{
    match value {
        Value::Null => false,
        Value::Bool(_) => false,
        Value::Number(n) => n.is_f64(),
        Value::String(_) => false,
        Value::Array(items) => items_have_float(items),
        Value::Object(members) => members_have_float(members),
    }
}

#[cycle(floats)]
fn items_have_float(items: &Vec<Value>) -> bool
    ensures { result ≡ items_have_float (items_view items.now.items) }
{
    for item in items {
        if has_float(item) {
            return true;
        }
    }
    false
}

#[cycle(floats)]
fn members_have_float(members: &Map<String, Value>) -> bool
    ensures { result ≡ members_have_float (members_view members.now.entries) }
{
    for (_, member) in members.iter() {
        if has_float(member) {
            return true;
        }
    }
    false
}

/// Returns whether arrays and objects nest at most `limit` deep.
#[cycle(depths)]
pub fn nests_within(value: &Value, limit: u32) -> bool
    ensures { IsTrue result ↔ (depth (view value.now) ≤ limit) }
{
    match value {
        Value::Null => true,
        Value::Bool(_) => true,
        Value::Number(_) => true,
        Value::String(_) => true,
        Value::Array(items) => limit > 0 && items_nest_within(items, limit - 1),
        Value::Object(members) => limit > 0 && members_nest_within(members, limit - 1),
    }
}

#[cycle(depths)]
fn items_nest_within(items: &Vec<Value>, limit: u32) -> bool
    ensures { IsTrue result ↔ (items_depth (items_view items.now.items) ≤ limit) }
{
    for item in items {
        if !nests_within(item, limit) {
            return false;
        }
    }
    true
}

#[cycle(depths)]
fn members_nest_within(members: &Map<String, Value>, limit: u32) -> bool
    ensures { IsTrue result ↔ (members_depth (members_view members.now.entries) ≤ limit) }
{
    for (_, member) in members.iter() {
        if !nests_within(member, limit) {
            return false;
        }
    }
    true
}

/// Returns the value with an empty object at the member `name`, where it has none.
pub fn with_object(alloc: Global, value: Value, name: &str) -> Result<Value, AllocError>
    ensures { IfOk result
        (λ v. view v ≡ with_default name.now (object no_members) (view value)) }
{
    if value.get(name).is_some() {
        return Ok(value);
    }
    with_member(alloc, value, name, Value::Object(Map::new(alloc)))
}

/// Returns the value with a text at the member `name`, where it has none.
pub fn with_text(alloc: Global, value: Value, name: &str, text: &str) -> Result<Value, AllocError>
    ensures { IfOk result (λ v. view v ≡ with_default name.now (string text.now) (view value)) }
{
    if value.get(name).is_some() {
        return Ok(value);
    }
    let inner = Value::try_from_str(alloc, text)?;
    with_member(alloc, value, name, inner)
}

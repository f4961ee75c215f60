//! Reading an object: what is wanted of it, and what is left out of it and filled in.
ghost use Rattle.std.specs.Prelude.{◌≡◌, true, false, IfOk, IfErr, OnOk, Ok, is_some, string_bytes, if◌then◌else◌};
ghost use Rattle.serde_json.specs.Data.{put};
ghost use Rattle.serde_json.specs.Find.{as_object};
ghost use Rattle.serde_json.specs.Written.{has_float};
ghost use Rattle.serde_json.specs.View.{view, items_view, members_view};
ghost use Rattle.spec_api.specs.Reading.{fits, items_fit, members_fit, tidied, tidied_items, tidied_members, is_empty, is_absent, schema_of, item_of, with_spec, filled, is_body, reading};
ghost use Rattle.meta.specs.Refused.{RefusesReading};

use crate::schemas::property_at;
use json_values::values::{has_float, nests_within, with_object, with_text};
use object_keys::Fault;
use serde_json::{Map, Value};
use spec_api::kinds::Kind;
use spec_api::refusals::Part;
use spec_api::schemas::{Property, Schema, Shape};
use std::alloc::{AllocError, Global};
use std::default::Emptied;

/// Returns whether a value has a shape.
#[cycle(fits)]
pub fn fits(value: &Value, shape: Shape) -> bool
    ensures { result ≡ fits shape (view value.now) }
{
    match (shape, value) {
        (Shape::Anything, _) => true,
        (Shape::Text, Value::String(_)) => true,
        (Shape::VersionOf(kind), Value::String(text)) => text.as_str() == kind.api_version(),
        (Shape::NameOf(kind), Value::String(text)) => text.as_str() == kind.name(),
        (Shape::Truth, Value::Bool(_)) => true,
        (Shape::Whole(least, most), Value::Number(number)) => match number.as_i64() {
            Some(n) => least <= n && n <= most,
            None => false,
        },
        (Shape::TextList, Value::Array(items)) => items_fit(items, Shape::Text),
        (Shape::List(schema), Value::Array(items)) => items_fit(items, Shape::Object(schema)),
        (Shape::Object(schema), Value::Object(members)) => members_fit(members, schema),
        _ => false,
    }
}

#[cycle(fits)]
fn items_fit(items: &Vec<Value>, shape: Shape) -> bool
    ensures { result ≡ items_fit shape (items_view items.now.items) }
{
    for item in items {
        if !fits(item, shape) {
            return false;
        }
    }
    true
}

#[cycle(fits)]
fn members_fit(members: &Map<String, Value>, schema: Schema) -> bool
    ensures { result ≡ members_fit schema (members_view members.now.entries) }
{
    for (key, member) in members.iter() {
        if !member.is_null() && !fits(member, property_at(schema, key.as_str()).shape) {
            return false;
        }
    }
    true
}

/// Returns whether a value is a text, list or object with nothing in it.
fn is_empty(value: &Value) -> bool
    ensures { result ≡ is_empty (view value.now) }
{
    match value {
        Value::Null => false,
        Value::Bool(_) => false,
        Value::Number(_) => false,
        Value::String(text) => text.len() == 0,
        Value::Array(items) => items.as_slice().len() == 0,
        Value::Object(members) => members.len() == 0,
    }
}

/// Returns whether a member counts as absent.
fn is_absent(described: Property, value: &Value) -> bool
    ensures { result ≡ is_absent described (view value.now) }
{
    value.is_null() || described.drops_empty && is_empty(value)
}

fn schema_of(shape: Shape) -> Schema
    ensures { result ≡ schema_of shape }
{
    match shape {
        Shape::Object(schema) => schema,
        _ => Schema::Unknown,
    }
}

fn item_of(shape: Shape) -> Shape
    ensures { result ≡ item_of shape }
{
    match shape {
        Shape::TextList => Shape::Text,
        Shape::List(schema) => Shape::Object(schema),
        _ => Shape::Anything,
    }
}

/// Returns the value without the members, at every depth, that count as absent.
#[cycle(tidy)]
pub fn tidy(value: Value, shape: Shape) -> Result<Value, AllocError>
    ensures { IfOk result (λ v. view v ≡ tidied shape (view value)) }
{
    match value {
        Value::Array(items) => Ok(Value::Array(tidy_items(items, item_of(shape))?)),
        Value::Object(members) => Ok(Value::Object(tidy_members(members, schema_of(shape))?)),
        other => Ok(other),
    }
}

#[cycle(tidy)]
fn tidy_items(items: Vec<Value>, shape: Shape) -> Result<Vec<Value>, AllocError>
    ensures { IfOk result (λ v. items_view v.items ≡ tidied_items shape (items_view items.items)) }
{
    let mut kept = Vec::with_capacity(*items.allocator(), items.len())?;
    for item in items {
        kept.push(tidy(item, shape)?)?;
    }
    Ok(kept)
}

#[cycle(tidy)]
fn tidy_members(
    members: Map<String, Value>,
    schema: Schema,
) -> Result<Map<String, Value>, AllocError>
    ensures { IfOk result (λ m. members_view m.entries ≡ tidied_members schema (members_view members.entries)) }
{
    if members.len() == 0 {
        return Ok(members);
    }
    let mut kept = Map::emptied(&members)?;
    for (key, member) in members {
        let described = property_at(schema, key.as_str());
        let inner = tidy(member, described.shape)?;
        put_if_there(&mut kept, key, described, inner)?;
    }
    Ok(kept)
}

/// Puts a member in, unless it counts as absent.
fn put_if_there(
    kept: &mut Map<String, Value>,
    key: String,
    described: Property,
    inner: Value,
) -> Result<(), AllocError>
    ensures { OnOk result (members_view kept.new.entries ≡ if is_absent described (view inner)
        then members_view kept.old.entries else put (string_bytes key) (view inner) (members_view kept.old.entries)) }
{
    if is_absent(described, &inner) {
        return Ok(());
    }
    drop(kept.insert(key, inner)?);
    Ok(())
}

fn with_spec(alloc: Global, kind: Kind, value: Value) -> Result<Value, AllocError>
    ensures { IfOk result (λ v. view v ≡ with_spec kind (view value)) }
{
    match kind {
        Kind::Pod => with_object(alloc, value, "spec"),
        _ => Ok(value),
    }
}

/// Returns the value with what is filled in.
fn fill(alloc: Global, kind: Kind, value: Value) -> Result<Value, AllocError>
    ensures { IfOk result (λ v. view v ≡ filled kind (view value)) }
{
    let value = with_object(alloc, value, "metadata")?;
    let value = with_spec(alloc, kind, value)?;
    let value = with_text(alloc, value, "kind", kind.name())?;
    with_text(alloc, value, "apiVersion", kind.api_version())
}

/// Returns whether a value is a JSON object that can be a body.
pub fn is_body(value: &Value) -> bool
    ensures { result ≡ is_body (view value.now) }
{
    value.is_object() && !has_float(value) && nests_within(value, 100)
}

/// Returns the value read as an object of a kind. The errors are the part of the request at fault, and running out of memory.
pub fn read(alloc: Global, kind: Kind, value: Value) -> Result<Value, Fault>
    ensures read { IfOk result (λ v. reading kind (view value) ≡ Ok (view v)) }
    ensures whole { IfOk result (λ v. has_float (view v) ≡ false) }
    ensures object { IfOk result (λ v. is_some (as_object (view v)) ≡ true) }
    ensures refused { IfErr result (RefusesReading kind (view value)) }
{
    if !is_body(&value) {
        return Err(Fault::BadRequest(Part::Body));
    }
    let root = Shape::Object(Schema::Root(kind));
    if !fits(&value, root) {
        return Err(Fault::BadRequest(Part::Object));
    }
    let tidy_value = tidy(value, root)?;
    Ok(fill(alloc, kind, tidy_value)?)
}

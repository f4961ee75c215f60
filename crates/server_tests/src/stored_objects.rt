//! Objects that nest deeper than a body may, and how they are laid out.
use json_values::values::has_float;
use meta::{Object, StoredObject};
use serde_json::{Map, Value};
use spec_api::kinds::Kind;
use std::alloc::{AllocError, Global};
use std::mem::size_of;

/// Returns the array of a value alone.
fn array_of(alloc: Global, value: Value) -> Result<Value, AllocError> {
    let mut items = Vec::new(alloc);
    items.push(value)?;
    Ok(Value::Array(items))
}

/// Returns the object whose only member is a value.
fn object_of(alloc: Global, value: Value) -> Result<Value, AllocError> {
    let mut members = Map::new(alloc);
    members.insert(String::from_str(alloc, "deep")?, value)?;
    Ok(Value::Object(members))
}

/// Returns a value that nests deeper than a text that is read back.
fn deep(alloc: Global) -> Result<Value, AllocError> {
    let mut value = Value::Null;
    for _ in 0..200u32 {
        value = array_of(alloc, value)?;
    }
    object_of(alloc, value)
}

/// Returns whether what was stored has the same text once it is opened.
fn is_opened_again(alloc: Global, stored: &StoredObject) -> Result<bool, AllocError> {
    let object = stored.open(alloc)?;
    Ok(object.text(alloc)? == stored.to_text(alloc)?)
}

/// Returns whether an object is the same after it was stored and opened, by its text.
fn is_the_same(alloc: Global, object: &Object) -> Result<bool, AllocError> {
    let stored = StoredObject::new(alloc, object)?;
    is_opened_again(alloc, &stored)
}

/// Returns whether an object that nests deep is the same after it was stored and opened, by its text.
fn is_opened(alloc: Global) -> Result<bool, AllocError> {
    let value = deep(alloc)?;
    if has_float(&value) || !value.is_object() {
        return Ok(false);
    }
    let object = Object::from_whole(Kind::ConfigMap, value);
    is_the_same(alloc, &object)
}

// No body nests as deep, but an object that does is opened all the same.
#[test]
fn an_object_that_nests_deep_is_stored(rt: HostRuntime) {
    assert_eq!(rt; is_opened(rt.alloc()), Ok(true));
}

/// Takes a type whose values threads send and share.
fn goes_between_threads<T: Send + Sync>() {}

// The store keeps one beside each key, and threads send them.
#[test]
fn a_stored_object_is_one_word(rt: HostRuntime) {
    goes_between_threads::<StoredObject>();
    assert_eq!(rt; size_of::<StoredObject>(), 8);
}

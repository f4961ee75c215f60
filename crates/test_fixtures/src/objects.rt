//! Keys and objects for tests.

use meta::{Object, StoredObject};
use object_keys::Key;
use serde_json::Value;
use spec_api::kinds::Kind;
use std::alloc::{AllocError, Global};
use std::test::Fail;

/// Returns the key of a name in the namespace `default`. The error is running out of memory.
pub fn key(alloc: Global, kind: Kind, name: &str) -> Result<Key, AllocError> {
    Ok(Key {
        kind,
        namespace: String::from_str(alloc, "default")?,
        name: String::from_str(alloc, name)?,
    })
}

/// Returns the object of a kind that a text says. It fails where the text is no such object, and without memory.
pub fn object(alloc: Global, kind: Kind, text: &str) -> Result<Object, Fail> {
    let value = Value::from_str(alloc, text)?;
    Ok(Object::from_value(alloc, kind, value)?)
}

/// Returns the object of a kind that a text says, as it is stored. It fails as `object` does.
pub fn stored(alloc: Global, kind: Kind, text: &str) -> Result<StoredObject, Fail> {
    let object = object(alloc, kind, text)?;
    Ok(StoredObject::new(alloc, &object)?)
}

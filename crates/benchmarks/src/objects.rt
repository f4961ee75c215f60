//! Objects that texts say.
use meta::Object;
use reflector::SharedObject;
use serde_json::Value;
use spec_api::kinds::Kind;
use std::alloc::{AllocError, Global};

/// Returns the object of a kind that a text says. The text is one that can be read.
pub fn object(alloc: Global, kind: Kind, text: &str) -> Result<Object, AllocError> {
    let Ok(value) = Value::from_str(alloc, text) else {
        return Err(AllocError);
    };
    let Ok(object) = Object::from_value(alloc, kind, value) else {
        return Err(AllocError);
    };
    Ok(object)
}

/// Returns the object of a kind that a text says, as it is shared.
pub fn shared(alloc: Global, kind: Kind, text: &str) -> Result<SharedObject, AllocError> {
    SharedObject::new(alloc, object(alloc, kind, text)?)
}

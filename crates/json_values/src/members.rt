//! What is done to the members of JSON objects, each by its meaning as data.
ghost use Rattle.std.specs.Prelude.{◌≡◌, IfOk, OnOk};
ghost use Rattle.serde_json.specs.Data.{null, put};
ghost use Rattle.serde_json.specs.View.{view, members_view};
ghost use Rattle.spec_api.specs.Values.{members_of, without, found_or_null};

use serde_json::{Map, Value};
use std::alloc::{AllocError, Global};

/// Returns the members of an object; another value has none.
pub fn into_members(alloc: Global, value: Value) -> Map<String, Value>
    ensures { members_view result.entries ≡ members_of (view value) }
{
    match value {
        Value::Object(members) => members,
        _ => Map::new(alloc),
    }
}

/// Removes the member `name`, if it is there.
pub fn remove(members: &mut Map<String, Value>, name: &str)
    ensures { members_view members.new.entries ≡ without name.now (members_view members.old.entries) }
{
    drop(members.remove(name));
}

/// Returns the value at `name`, which is null where there is none, and leaves null there.
pub fn take(
    alloc: Global,
    members: &mut Map<String, Value>,
    name: &str,
) -> Result<Value, AllocError>
    ensures taken { IfOk result (λ v. view v
        ≡ found_or_null name.now (members_view members.old.entries)) }
    ensures left { OnOk result (members_view members.new.entries
        ≡ put name.now null (members_view members.old.entries)) }
{
    let name = String::from_str(alloc, name)?;
    match members.insert(name, Value::Null)? {
        Some(existing) => Ok(existing),
        None => Ok(Value::Null),
    }
}

//! Objects with a member set, preserved or removed.
ghost use Rattle.std.specs.Prelude.{◌≡◌, IfOk, false};
ghost use Rattle.serde_json.specs.Data.{object, put};
ghost use Rattle.serde_json.specs.Find.{get_member};
ghost use Rattle.serde_json.specs.View.{view};
ghost use Rattle.serde_json.specs.Written.{has_float};
ghost use Rattle.spec_api.specs.Replacements.{as_stored};
ghost use Rattle.spec_api.specs.Values.{members_of, without};

use crate::objects::Object;
use json_values::members::{into_members, remove};
use serde_json::Value;
use std::alloc::{AllocError, Global};

impl Object {
    /// Returns the object with a value at the member `name`. The error is running out of memory.
    pub fn set_member(self, alloc: Global, name: &str, value: Value) -> Result<Object, AllocError>
        requires no_float { has_float (view value) ≡ false }
        ensures value { IfOk result (λ o. o.value ≡ object (put name.now (view value) (members_of self.value))) }
        ensures kind { IfOk result (λ o. o.kind ≡ self.kind) }
    {
        let kind = self.kind();
        let mut members = into_members(alloc, self.into_value());
        serde_json::put(&mut members, alloc, name, value)?;
        Ok(Object::from_whole(kind, Value::Object(members)))
    }

    /// Returns the object without the member `name`.
    fn without_member(self, alloc: Global, name: &str) -> Object
        ensures value { result.value ≡ object (without name.now (members_of self.value)) }
        ensures kind { result.kind ≡ self.kind }
    {
        let kind = self.kind();
        let mut members = into_members(alloc, self.into_value());
        remove(&mut members, name);
        Object::from_whole(kind, Value::Object(members))
    }

    /// Returns the object with the member `name` as `existing` has it, or without it where `existing` has none. The error is
    /// running out of memory.
    pub fn keep_member(
        self,
        alloc: Global,
        name: &str,
        existing: &Object,
    ) -> Result<Object, AllocError>
        ensures value { IfOk result (λ o. o.value
            ≡ object (as_stored name.now (get_member name.now (members_of existing.now.value)) (members_of self.value))) }
        ensures kind { IfOk result (λ o. o.kind ≡ self.kind) }
    {
        match existing.member(name) {
            Some(found) => {
                let value = found.clone()?;
                self.set_member(alloc, name, value)
            }
            None => Ok(self.without_member(alloc, name)),
        }
    }
}

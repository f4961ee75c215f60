//! Objects whose metadata is being written.
ghost use Rattle.std.specs.Prelude.{◌≡◌, IfOk, OnOk, OnErr, false};
ghost use Rattle.serde_json.specs.Data.{Members, string, array, put};
ghost use Rattle.serde_json.specs.View.{items_view};
ghost use Rattle.serde_json.specs.Written.{items_have_float};
ghost use Rattle.serde_json.specs.Find.{get_member};
ghost use Rattle.spec_api.specs.Defaults.{unsigned_value};
ghost use Rattle.spec_api.specs.Metadata.{metadata_of, with_metadata};
ghost use Rattle.spec_api.specs.Values.{without};
ghost use Rattle.spec_api.specs.Replacements.{as_stored};

use json_values::members::{into_members, remove, take};
use json_values::values::whole_number;
use meta::Object;
use serde_json::{Map, Value};
use spec_api::kinds::Kind;
use std::alloc::{AllocError, Global};
use std::marker::Model;

/// An object whose metadata is being written: its metadata stands apart, so that setting a member of it copies nothing
/// else of the object.
pub struct Draft {
    kind: Kind,
    rest: Map<String, Value>,
    metadata: Map<String, Value>,
}

impl Drop for Draft {
    // Called where one is dropped; a derived drop is proved anew at each such place.
    fn drop(self) {
        let Draft {
            kind: _kind,
            rest: _rest,
            metadata: _metadata,
        } = self;
    }
}

impl Model for Draft {
    ghost use Rattle.std.specs.Prelude.{◌≡◌, false};
    ghost use Rattle.serde_json.specs.Data.{object};
    ghost use Rattle.serde_json.specs.View.{members_view};
    ghost use Rattle.serde_json.specs.Written.{members_have_float};
    ghost use Rattle.metadata_editor.specs.Drafts as drafts;

    ghost Value = { drafts.Draft };

    ghost coded = { drafts.coded_draft };

    ghost view = { λ d. record {
      kind = d.kind;
      rest = object (members_view d.rest.entries);
      metadata = members_view d.metadata.entries;
    } };

    ghost invariant = { λ d. (members_have_float (members_view d.rest.entries) ≡ false)
        × (members_have_float (members_view d.metadata.entries) ≡ false) };
}

impl Draft {
    /// Returns the draft of an object. The error is running out of memory.
    pub fn new(alloc: Global, object: Object) -> Result<Draft, AllocError>
        ensures metadata { IfOk result (λ d. d.metadata ≡ metadata_of object.value) }
        ensures rest { IfOk result (λ d. (m : Members) → with_metadata m d.rest ≡ with_metadata m object.value) }
        ensures kind { IfOk result (λ d. d.kind ≡ object.kind) }
    {
        let kind = object.kind();
        let mut rest = into_members(alloc, object.into_value());
        let metadata = into_members(alloc, take(alloc, &mut rest, "metadata")?);
        Ok(Draft {
            kind,
            rest,
            metadata,
        })
    }

    /// Removes the member `name` of the metadata, if it is there.
    pub fn remove(&mut self, name: &str)
        ensures metadata { self.new.metadata ≡ without name.now self.old.metadata }
        ensures rest { self.new.rest ≡ self.old.rest }
        ensures kind { self.new.kind ≡ self.old.kind }
    {
        remove(&mut self.metadata, name);
    }

    /// Sets the member `name` of the metadata to a text. The error, running out of memory, leaves the draft as it was.
    pub fn set_text(&mut self, alloc: Global, name: &str, text: &str) -> Result<(), AllocError>
        ensures metadata { OnOk result (self.new.metadata ≡ put name.now (string text.now) self.old.metadata) }
        ensures rest { self.new.rest ≡ self.old.rest }
        ensures kind { self.new.kind ≡ self.old.kind }
        ensures err { OnErr result (self.new ≡ self.old) }
    {
        let value = Value::try_from_str(alloc, text)?;
        serde_json::put(&mut self.metadata, alloc, name, value)
    }

    /// Sets the member `name` of the metadata to a whole number. The error, running out of memory, leaves the draft as it was.
    pub fn set_count(&mut self, alloc: Global, name: &str, count: u64) -> Result<(), AllocError>
        ensures metadata { OnOk result (self.new.metadata ≡ put name.now (unsigned_value count) self.old.metadata) }
        ensures rest { self.new.rest ≡ self.old.rest }
        ensures kind { self.new.kind ≡ self.old.kind }
        ensures err { OnErr result (self.new ≡ self.old) }
    {
        let value = whole_number(alloc, count)?;
        serde_json::put(&mut self.metadata, alloc, name, value)
    }

    /// Sets the member `name` of the metadata to a list. The error, running out of memory, leaves the draft as it was.
    pub fn set_items(
        &mut self,
        alloc: Global,
        name: &str,
        items: Vec<Value>,
    ) -> Result<(), AllocError>
        requires no_float { items_have_float (items_view items.items) ≡ false }
        ensures metadata { OnOk result (self.new.metadata ≡ put name.now (array (items_view items.items)) self.old.metadata) }
        ensures rest { self.new.rest ≡ self.old.rest }
        ensures kind { self.new.kind ≡ self.old.kind }
        ensures err { OnErr result (self.new ≡ self.old) }
    {
        serde_json::put(&mut self.metadata, alloc, name, Value::Array(items))
    }

    /// Sets the member `name` of the metadata to what `existing` has there, or removes it where `existing` has none. The error,
    /// running out of memory, leaves the draft as it was.
    pub fn keep(&mut self, alloc: Global, name: &str, existing: &Object) -> Result<(), AllocError>
        ensures metadata { OnOk result (self.new.metadata
            ≡ as_stored name.now (get_member name.now (metadata_of existing.now.value)) self.old.metadata) }
        ensures rest { self.new.rest ≡ self.old.rest }
        ensures kind { self.new.kind ≡ self.old.kind }
        ensures err { OnErr result (self.new ≡ self.old) }
    {
        match existing.metadata_member(name) {
            Some(found) => {
                let value = found.clone()?;
                serde_json::put(&mut self.metadata, alloc, name, value)
            }
            None => {
                remove(&mut self.metadata, name);
                Ok(())
            }
        }
    }

    /// Returns the object with the metadata as it was written. The error is running out of memory.
    pub fn close(self, alloc: Global) -> Result<Object, AllocError>
        ensures value { IfOk result (λ o. o.value ≡ with_metadata self.metadata self.rest) }
        ensures kind { IfOk result (λ o. o.kind ≡ self.kind) }
    {
        let Draft {
            kind,
            mut rest,
            metadata,
        } = self;
        serde_json::put(&mut rest, alloc, "metadata", Value::Object(metadata))?;
        Ok(Object::from_whole(kind, Value::Object(rest)))
    }
}

//! Objects as values that were read as such: their members, their metadata, and their texts.
ghost use Rattle.std.specs.Prelude.{◌≡◌, ◌≤◌, ◌++◌, Some, Ok, OnOk, IfOk, IfErr, IfSome, is_some, map, codes, option_map, option_and_then, string_bytes, true, false};
ghost use Rattle.serde_json.specs.Find.{get, as_array, as_object};
ghost use Rattle.serde_json.specs.Data.{depth};
ghost use Rattle.serde_json.specs.Read.{read, max_depth};
ghost use Rattle.serde_json.specs.View.{view, items_view, members_view};
ghost use Rattle.serde_json.specs.Written.{has_float, compact_text, IsInOrder};
ghost use Rattle.spec_api.specs.Checks.{generate_name};
ghost use Rattle.spec_api.specs.Metadata.{name, namespace, uid, version, is_being_deleted, label, owners, metadata, metadata_text};
ghost use Rattle.spec_api.specs.Reading.{reading};
ghost use Rattle.spec_api.specs.Replacements.{generation, next_generation};
ghost use Rattle.spec_api.specs.Verbs.{as_item};
ghost use Rattle.meta.specs.Refused.{RefusesReading};
ghost use Rattle.meta.specs.Owners.{owner_of};

use crate::items::push_item_text;
use crate::owners::{OwnerReference, owners_in};
use crate::reading::read;
use object_keys::Fault;
use serde_json::{Map, Value};
use spec_api::kinds::Kind;
use std::alloc::{AllocError, Global};
use std::marker::Model;

/// The greatest generation, 2^53 - 1.
const GREATEST_GENERATION: u64 = 9_007_199_254_740_991;

/// An object of a kind: a JSON object in which each number is a whole number.
pub struct Object {
    kind: Kind,
    value: Value,
}

impl Drop for Object {
    // Called where one is dropped; a derived drop is proved anew at each such place.
    fn drop(self) {
        let Object {
            kind: _kind,
            value: _value,
        } = self;
    }
}

impl Model for Object {
    ghost use Rattle.std.specs.Prelude.{◌≡◌, true, false, is_some};
    ghost use Rattle.model_encodings.specs.Codes.{coded_object};
    ghost use Rattle.spec_api.specs.Objects as objects;
    ghost use Rattle.serde_json.specs.Find.{as_object};
    ghost use Rattle.serde_json.specs.View as json;
    ghost use Rattle.serde_json.specs.Written.{has_float};

    ghost Value = { objects.Object };

    ghost coded = { coded_object };

    ghost view = { λ o. record { kind = o.kind; value = json.view o.value } };

    ghost invariant = { λ o. (has_float (json.view o.value) ≡ false)
        × (is_some (as_object (json.view o.value)) ≡ true) };
}

impl Object {
    /// Reads a value as an object of a kind. The errors are the part of the request at fault, and running out of memory.
    pub fn from_value(alloc: Global, kind: Kind, value: Value) -> Result<Object, Fault>
        ensures read { IfOk result (λ o. reading kind (view value) ≡ Ok o.value) }
        ensures kind { IfOk result (λ o. o.kind ≡ kind) }
        ensures refused { IfErr result (RefusesReading kind (view value)) }
    {
        let value = read(alloc, kind, value)?;
        Ok(Object { kind, value })
    }

    /// Returns a copy of the object. The error is running out of memory.
    pub fn try_copy(&self) -> Result<Object, AllocError>
        ensures { IfOk result (λ o. o ≡ self.now) }
    {
        let value = self.value.clone()?;
        Ok(Object {
            kind: self.kind,
            value,
        })
    }

    /// Returns the object's text, with no space, which is read back as the object. The error is running out of memory.
    pub fn text(&self, alloc: Global) -> Result<String, AllocError>
        ensures text { IfOk result (λ s. string_bytes s ≡ compact_text self.now.value) }
        ensures order { IfOk result (λ s. IsInOrder (string_bytes s) self.now.value) }
        ensures reads_back { IfOk result (λ s. depth self.now.value ≤ max_depth
            → read (string_bytes s) ≡ Some self.now.value) }
        ensures no_float { has_float self.now.value ≡ false }
    {
        self.value.to_string(alloc)
    }

    /// Adds the object's text as an item of a list, which has no `apiVersion` and no `kind`. The error is running out of
    /// memory.
    pub fn push_item_text(&self, alloc: Global, text: &mut String) -> Result<(), AllocError>
        ensures { OnOk result (string_bytes text.new
            ≡ string_bytes text.old ++ compact_text (as_item self.now.value)) }
    {
        match &self.value {
            Value::Object(members) => push_item_text(alloc, members, text),
            _ => text.push_str("{}"),
        }
    }

    /// Returns a reference to the object's value.
    pub(crate) fn value(&self) -> &Value
        ensures value { view result.now ≡ self.now.value }
        ensures no_float { has_float (view result.now) ≡ false }
        ensures object { is_some (as_object (view result.now)) ≡ true }
    {
        &self.value
    }

    /// Returns the object's value.
    pub fn into_value(self) -> Value
        ensures value { view result ≡ self.value }
        ensures no_float { has_float (view result) ≡ false }
        ensures object { is_some (as_object (view result)) ≡ true }
    {
        let Object { kind: _, value } = self;
        value
    }

    /// Returns the object of a kind with this value.
    pub fn from_whole(kind: Kind, value: Value) -> Object
        requires no_float { has_float (view value) ≡ false }
        requires object { is_some (as_object (view value)) ≡ true }
        ensures value { result.value ≡ view value }
        ensures kind { result.kind ≡ kind }
    {
        Object { kind, value }
    }

    /// Returns a member of the object, as `spec` and `status` are.
    pub fn member(&self, name: &str) -> Option<&Value>
        ensures member { option_map (λ v. view v.now) result ≡ get name.now self.now.value }
        ensures no_float { IfSome result (λ v. has_float (view v.now) ≡ false) }
    {
        member(&self.value, name)
    }

    /// Returns a member of the metadata.
    pub fn metadata_member(&self, name: &str) -> Option<&Value>
        ensures member { option_map (λ v. view v.now) result ≡ metadata name.now self.now.value }
        ensures no_float { IfSome result (λ v. has_float (view v.now) ≡ false) }
    {
        metadata_member(&self.value, name)
    }

    /// Returns the object's kind.
    pub fn kind(&self) -> Kind
        ensures { result ≡ self.now.kind }
    {
        self.kind
    }

    /// Returns the object's name, unique in its namespace.
    pub fn name(&self) -> Option<&str>
        ensures { option_map (λ s. s.now) result ≡ name self.now.value }
    {
        metadata_text(&self.value, "name")
    }

    /// Returns what the object's name is made of, where the server is to make one.
    pub fn generate_name(&self) -> Option<&str>
        ensures { option_map (λ s. s.now) result ≡ generate_name self.now.value }
    {
        metadata_text(&self.value, "generateName")
    }

    /// Returns the namespace that the object is in.
    pub fn namespace(&self) -> Option<&str>
        ensures { option_map (λ s. s.now) result ≡ namespace self.now.value }
    {
        metadata_text(&self.value, "namespace")
    }

    /// Returns what tells the object from others that had its name before.
    pub fn uid(&self) -> Option<&str>
        ensures { option_map (λ s. s.now) result ≡ uid self.now.value }
    {
        metadata_text(&self.value, "uid")
    }

    /// Returns the revision of the object's last write, in decimal.
    pub fn resource_version(&self) -> Option<&str>
        ensures { option_map (λ s. s.now) result ≡ version self.now.value }
    {
        metadata_text(&self.value, "resourceVersion")
    }

    /// Returns how many specs the object has had, as its metadata has it; 0 where it has none.
    pub fn generation(&self) -> u64
        ensures { result ≡ generation self.now.value }
    {
        match metadata_member(&self.value, "generation") {
            Some(found) => found.as_u64().unwrap_or(0),
            None => 0,
        }
    }

    /// Returns the generation after the object's; the greatest whole number that every reader of JSON represents exactly has
    /// none after it.
    pub fn next_generation(&self) -> u64
        ensures { result ≡ next_generation (generation self.now.value) }
    {
        let generation = self.generation();
        if generation < GREATEST_GENERATION {
            generation + 1
        } else {
            generation
        }
    }

    /// Returns whether the object is being deleted: its deletionTimestamp is set.
    pub fn is_being_deleted(&self) -> bool
        ensures { result ≡ is_being_deleted self.now.value }
    {
        metadata_text(&self.value, "deletionTimestamp").is_some()
    }

    /// Returns the value of a label.
    pub fn label(&self, name: &str) -> Option<&str>
        ensures { option_map (λ s. s.now) result ≡ label name.now self.now.value }
    {
        metadata_member(&self.value, "labels")?.get(name)?.as_str()
    }

    /// Returns the labels, each a name and a text.
    pub fn labels(&self) -> Option<&Map<String, Value>>
        ensures { option_map (λ m. members_view m.now.entries) result
            ≡ option_and_then as_object (metadata (codes "labels") self.now.value) }
    {
        metadata_member(&self.value, "labels")?.as_object()
    }

    /// Returns the owners that the object's references name, in their order. The error is running out of memory.
    pub fn owners(&self, alloc: Global) -> Result<Vec<OwnerReference<'_>>, AllocError>
        ensures { IfOk result (λ v. map owner_of v.items ≡ owners self.now.value) }
    {
        match owner_references(&self.value) {
            Some(references) => owners_in(alloc, references),
            None => Ok(Vec::new(alloc)),
        }
    }
}

/// Returns a text of an object's metadata.
fn metadata_text<'a>(value: &'a Value, name: &str) -> Option<&'a str>
    ensures { option_map (λ s. s.now) result ≡ metadata_text name.now (view value.now) }
{
    metadata_member(value, name)?.as_str()
}

fn member<'a>(value: &'a Value, name: &str) -> Option<&'a Value>
    ensures { option_map (λ v. view v.now) result ≡ get name.now (view value.now) }
{
    value.get(name)
}

/// Returns a member of an object's metadata.
fn metadata_member<'a>(value: &'a Value, name: &str) -> Option<&'a Value>
    ensures { option_map (λ v. view v.now) result ≡ metadata name.now (view value.now) }
{
    value.get("metadata")?.get(name)
}

/// Returns the references to an object's owners.
fn owner_references(value: &Value) -> Option<&Vec<Value>>
    ensures { option_map (λ v. items_view v.now.items) result
        ≡ option_and_then as_array (metadata (codes "ownerReferences") (view value.now)) }
{
    metadata_member(value, "ownerReferences")?.as_array()
}

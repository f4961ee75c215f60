//! Copies of objects with other owner references.
ghost use Rattle.std.specs.Prelude.{◌≡◌, IfOk, OnOk, map, true, false};
ghost use Rattle.serde_json.specs.Data.{boolean, string, put};
ghost use Rattle.serde_json.specs.View.{view, items_view, members_view};
ghost use Rattle.serde_json.specs.Written.{has_float, items_have_float, members_have_float};
ghost use Rattle.object_keys.specs.Keys.{key_of};
ghost use Rattle.spec_reconcile.specs.MetadataEdits.{references, with_list, controller_reference, with_controller};

use meta::Object;
use metadata_editor::Draft;
use object_keys::Key;
use serde_json::{Map, Value};
use std::alloc::{AllocError, Global};

/// Returns the owner references of an object, as they are stored; none where it has none.
pub fn references(object: &Object) -> &[Value]
    ensures items { items_view result.now ≡ references object.now.value }
    ensures no_float { items_have_float (items_view result.now) ≡ false }
{
    match object.metadata_member("ownerReferences") {
        Some(Value::Array(items)) => items.as_slice(),
        _ => &[],
    }
}

/// Returns a copy of an object with a list at the member `name` of its metadata. The error is running out of memory.
pub fn with_list(
    alloc: Global,
    object: &Object,
    name: &str,
    items: Vec<Value>,
) -> Result<Object, AllocError>
    requires no_float { items_have_float (items_view items.items) ≡ false }
    ensures { IfOk result (λ o. o.value ≡ with_list name.now (items_view items.items) object.now.value) }
{
    let mut draft = Draft::new(alloc, object.try_copy()?)?;
    draft.set_items(alloc, name, items)?;
    draft.close(alloc)
}

/// Sets a member to a text. The error is running out of memory.
fn set_text(
    alloc: Global,
    members: &mut Map<String, Value>,
    name: &str,
    text: &str,
) -> Result<(), AllocError>
    requires { members_have_float (members_view members.old.entries) ≡ false }
    ensures set { OnOk result (members_view members.new.entries
        ≡ put name.now (string text.now) (members_view members.old.entries)) }
    ensures no_float { members_have_float (members_view members.new.entries) ≡ false }
{
    let value = Value::try_from_str(alloc, text)?;
    serde_json::put(members, alloc, name, value)
}

/// Sets a member to true. The error is running out of memory.
fn set_true(alloc: Global, members: &mut Map<String, Value>, name: &str) -> Result<(), AllocError>
    requires { members_have_float (members_view members.old.entries) ≡ false }
    ensures set { OnOk result (members_view members.new.entries
        ≡ put name.now (boolean true) (members_view members.old.entries)) }
    ensures no_float { members_have_float (members_view members.new.entries) ≡ false }
{
    serde_json::put(members, alloc, name, Value::Bool(true))
}

/// Returns the reference to an object as the controller (Kubernetes API reference, OwnerReference). The error is running out
/// of memory.
pub fn controller_reference(alloc: Global, key: &Key, owner: &Object) -> Result<Value, AllocError>
    ensures value { IfOk result (λ v. view v ≡ controller_reference (key_of key.now) owner.now.value) }
    ensures no_float { IfOk result (λ v. has_float (view v) ≡ false) }
{
    let mut members = Map::new(alloc);
    set_text(alloc, &mut members, "apiVersion", key.kind.api_version())?;
    set_true(alloc, &mut members, "blockOwnerDeletion")?;
    set_true(alloc, &mut members, "controller")?;
    set_text(alloc, &mut members, "kind", key.kind.name())?;
    set_text(alloc, &mut members, "name", key.name.as_str())?;
    set_text(alloc, &mut members, "uid", owner.uid().unwrap_or(""))?;
    Ok(Value::Object(members))
}

/// Returns copies of the items, with room for one more.
fn copies(alloc: Global, items: &[Value]) -> Result<Vec<Value>, AllocError>
    ensures { IfOk result (λ v. map view v.items ≡ map view items.now) }
{
    let mut copies = Vec::with_capacity(alloc, items.len() + 1)?;
    for item in items {
        copies.push(item.clone()?)?;
    }
    Ok(copies)
}

/// Returns a copy of an object with an owner more, which is its controller: the last of its references. The error is running
/// out of memory.
pub fn with_controller(
    alloc: Global,
    key: &Key,
    owner: &Object,
    object: &Object,
) -> Result<Object, AllocError>
    ensures { IfOk result (λ o. o.value ≡ with_controller (key_of key.now) owner.now.value object.now.value) }
{
    let mut references = copies(alloc, references(object))?;
    references.push(controller_reference(alloc, key, owner)?)?;
    with_list(alloc, object, "ownerReferences", references)
}

//! Copies of objects without some of their owner references, or a finalizer.
ghost use Rattle.std.specs.Prelude.{◌≡◌, ◌++◌, IfOk, OnOk, map, not, option_map};
ghost use Rattle.std.specs.Str.{bytes_eq};
ghost use Rattle.serde_json.specs.View.{view, items_view};
ghost use Rattle.spec_api.specs.Checks.{text_is};
ghost use Rattle.spec_api.specs.Metadata.{owner};
ghost use Rattle.reconcile_types.specs.Hands.{reads_of};
ghost use Rattle.spec_reconcile.specs.MetadataEdits.{only, without_finalizer, keeping_owners, unblocked, all_unblocked, blocking_nobody};
ghost use Rattle.spec_reconcile.specs.Standings.{is_to, standing, is_solid};
ghost use Rattle.collector.specs.Picked.{picked_if};

use crate::standings::{is_solid, is_to, standing};
use json_values::members::into_members;
use meta::Object;
use meta::finalizers::is_text;
use meta::owners::owner;
use owner_references::edits::{references, with_list};
use reconcile_types::Read;
use serde_json::Value;
use std::alloc::{AllocError, Global};

/// Adds a copy of a value, if it is picked.
fn pick(is_picked: bool, value: &Value, picked: &mut Vec<Value>) -> Result<(), AllocError>
    ensures { OnOk result (map view picked.new.items
        ≡ map view picked.old.items ++ picked_if is_picked (view value.now)) }
{
    if is_picked {
        picked.push(value.clone()?)?;
    }
    Ok(())
}

/// Returns copies of the items but those that are this text.
fn other_texts(alloc: Global, text: &str, items: &[Value]) -> Result<Vec<Value>, AllocError>
    ensures { IfOk result (λ v. items_view v.items ≡ only (λ f. not (text_is (bytes_eq text.now) f)) (items_view items.now)) }
{
    let mut picked = Vec::new(alloc);
    for item in items {
        pick(!is_text(item, text), item, &mut picked)?;
    }
    Ok(picked)
}

/// Returns whether a reference, as it is stored, is to this object.
fn refers_to(object: &Object, reference: &Value) -> bool
    ensures { result ≡ is_to object.now.value (owner (view reference.now)) }
{
    is_to(object, &owner(reference))
}

/// Returns copies of the references but those to this object.
fn others(alloc: Global, object: &Object, references: &[Value]) -> Result<Vec<Value>, AllocError>
    ensures { IfOk result (λ v. items_view v.items
        ≡ only (λ r. not (is_to object.now.value (owner r))) (items_view references.now)) }
{
    let mut picked = Vec::new(alloc);
    for reference in references {
        pick(!refers_to(object, reference), reference, &mut picked)?;
    }
    Ok(picked)
}

/// Returns whether the owner that a reference names is solid, by the live reads.
fn is_to_solid(
    alloc: Global,
    reads: &[Read],
    namespace: &str,
    reference: &Value,
) -> Result<bool, AllocError>
    ensures { IfOk result (λ b. b ≡ is_solid (standing (reads_of reads.now) namespace.now (owner (view reference.now)))) }
{
    let owner = owner(reference);
    let found = standing(alloc, reads, namespace, &owner)?;
    Ok(is_solid(found))
}

/// Returns copies of the references to owners that are solid, by the live reads.
fn solid_ones(
    alloc: Global,
    reads: &[Read],
    namespace: &str,
    references: &[Value],
) -> Result<Vec<Value>, AllocError>
    ensures { IfOk result (λ v. items_view v.items
        ≡ only (λ r. is_solid (standing (reads_of reads.now) namespace.now (owner r))) (items_view references.now)) }
{
    let mut picked = Vec::new(alloc);
    for reference in references {
        let is_kept = is_to_solid(alloc, reads, namespace, reference)?;
        pick(is_kept, reference, &mut picked)?;
    }
    Ok(picked)
}

/// Returns a copy of a reference for which its owner does not wait.
fn unblocked(alloc: Global, reference: &Value) -> Result<Value, AllocError>
    ensures { IfOk result (λ v. view v ≡ unblocked (view reference.now)) }
{
    let mut members = into_members(alloc, reference.clone()?);
    serde_json::put(
        &mut members,
        alloc,
        "blockOwnerDeletion",
        Value::Bool(false),
    )?;
    Ok(Value::Object(members))
}

/// Returns copies of references for which no owner waits.
fn all_unblocked(alloc: Global, references: &[Value]) -> Result<Vec<Value>, AllocError>
    ensures { IfOk result (λ v. items_view v.items ≡ all_unblocked (items_view references.now)) }
{
    let mut changed = Vec::with_capacity(alloc, references.len())?;
    for reference in references {
        changed.push(unblocked(alloc, reference)?)?;
    }
    Ok(changed)
}

/// Returns a copy of an object without this finalizer. The error is running out of memory.
pub fn without_finalizer(
    alloc: Global,
    object: &Object,
    finalizer: &str,
) -> Result<Object, AllocError>
    ensures { IfOk result (λ o. o.value ≡ without_finalizer finalizer.now object.now.value) }
{
    let left = other_texts(alloc, finalizer, object.finalizers())?;
    with_list(alloc, object, "finalizers", left)
}

/// Returns a copy of a dependent without its references to an object. The error is running out of memory.
pub fn without_owner(
    alloc: Global,
    object: &Object,
    dependent: &Object,
) -> Result<Object, AllocError>
    ensures { IfOk result (λ o. o.value ≡ keeping_owners (λ w. not (is_to object.now.value w)) dependent.now.value) }
{
    let left = others(alloc, object, references(dependent))?;
    with_list(alloc, dependent, "ownerReferences", left)
}

/// Returns a copy of an object that names those of its owners alone which are solid, by the live reads. The error is
/// running out of memory.
pub fn with_solid_owners(
    alloc: Global,
    reads: &[Read],
    namespace: &str,
    object: &Object,
) -> Result<Object, AllocError>
    ensures { IfOk result (λ o. o.value
        ≡ keeping_owners (λ w. is_solid (standing (reads_of reads.now) namespace.now w)) object.now.value) }
{
    let left = solid_ones(alloc, reads, namespace, references(object))?;
    with_list(alloc, object, "ownerReferences", left)
}

/// Returns a copy of an object for which no owner waits. The error is running out of memory.
pub fn blocking_nobody(alloc: Global, object: &Object) -> Result<Object, AllocError>
    ensures { IfOk result (λ o. o.value ≡ blocking_nobody object.now.value) }
{
    let changed = all_unblocked(alloc, references(object))?;
    with_list(alloc, object, "ownerReferences", changed)
}

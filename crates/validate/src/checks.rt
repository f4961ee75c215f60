//! The checks in their order.
ghost use Rattle.std.specs.Prelude.{◌≡◌, IfOk, IfErr, None, true};
ghost use Rattle.spec_api.specs.declared.kinds.Kind.TheVariants.{ReplicaSet, Deployment};
ghost use Rattle.spec_api.specs.Checks.{checks, checks_of, create_fault, update_fault, adds_no_finalizer, first_fault, is_selector_kept};
ghost use Rattle.object_keys.specs.Keys.{key_of};
ghost use Rattle.object_keys.specs.declared.fault.Fault.TheVariants.{NoMemory};
ghost use Rattle.validate.specs.Faults.{RefusesField};

use crate::counts::{are_replicas_valid, is_history_limit_valid, is_status_valid};
use crate::finalizers::{adds_no_finalizer, are_finalizers_valid};
use crate::labels::are_labels;
use crate::object_names::{is_generate_name_valid, is_name_valid};
use crate::owners::are_owners_valid;
use crate::selectors::{is_selector_kept, says_something, selector_of};
use crate::strategies::is_strategy_valid;
use crate::templates::is_template;
use meta::Object;
use object_keys::{Fault, Key};
use spec_api::kinds::Kind;
use spec_api::refusals::Field;
use std::alloc::Global;

fn replica_set_fault(alloc: Global, object: &Object, is_kept: bool) -> Result<Option<Field>, Fault>
    ensures found { IfOk result (λ f. f ≡ first_fault (checks_of ReplicaSet is_kept object.now.value)) }
    ensures refused { IfErr result (λ e. e ≡ NoMemory) }
{
    let selector = selector_of(alloc, object)?;
    if !are_replicas_valid(object) {
        return Ok(Some(Field::Replicas));
    }
    if !(says_something(&selector) && is_kept) {
        return Ok(Some(Field::Selector));
    }
    if !is_template(object, &selector) {
        return Ok(Some(Field::Template));
    }
    if !is_status_valid(Kind::ReplicaSet, object) {
        return Ok(Some(Field::Status));
    }
    Ok(None)
}

fn deployment_fault(alloc: Global, object: &Object, is_kept: bool) -> Result<Option<Field>, Fault>
    ensures found { IfOk result (λ f. f ≡ first_fault (checks_of Deployment is_kept object.now.value)) }
    ensures refused { IfErr result (λ e. e ≡ NoMemory) }
{
    let selector = selector_of(alloc, object)?;
    if !are_replicas_valid(object) {
        return Ok(Some(Field::Replicas));
    }
    if !(says_something(&selector) && is_kept) {
        return Ok(Some(Field::Selector));
    }
    if !is_template(object, &selector) {
        return Ok(Some(Field::Template));
    }
    if !is_strategy_valid(object) {
        return Ok(Some(Field::Strategy));
    }
    if !is_history_limit_valid(object) {
        return Ok(Some(Field::RevisionHistoryLimit));
    }
    if !is_status_valid(Kind::Deployment, object) {
        return Ok(Some(Field::Status));
    }
    Ok(None)
}

fn kind_fault(alloc: Global, object: &Object, is_kept: bool) -> Result<Option<Field>, Fault>
    ensures found { IfOk result (λ f. f ≡ first_fault (checks_of object.now.kind is_kept object.now.value)) }
    ensures refused { IfErr result (λ e. e ≡ NoMemory) }
{
    match object.kind() {
        Kind::ConfigMap => Ok(None),
        Kind::Pod => Ok(None),
        Kind::ReplicaSet => replica_set_fault(alloc, object, is_kept),
        Kind::Deployment => deployment_fault(alloc, object, is_kept),
    }
}

/// Returns the first field of an object that is not valid. The error is running out of memory.
fn fault(
    alloc: Global,
    object: &Object,
    made: &str,
    present: u64,
    adds_none: bool,
    is_kept: bool,
) -> Result<Option<Field>, Fault>
    ensures found { IfOk result (λ f. f ≡ first_fault (checks object.now.kind made.now present adds_none is_kept object.now.value)) }
    ensures refused { IfErr result (λ e. e ≡ NoMemory) }
{
    if !is_name_valid(object) {
        return Ok(Some(Field::Name));
    }
    if !is_generate_name_valid(object, made) {
        return Ok(Some(Field::GenerateName));
    }
    if !are_labels(object.metadata_member("labels")) {
        return Ok(Some(Field::Labels));
    }
    if !(are_finalizers_valid(object) && adds_none) {
        return Ok(Some(Field::Finalizers));
    }
    if !are_owners_valid(object, present) {
        return Ok(Some(Field::OwnerReferences));
    }
    kind_fault(alloc, object, is_kept)
}

/// Refuses a field, if there is one, of the object under a key.
fn refuse(key: &Key, found: Option<Field>) -> Result<(), Fault>
    ensures valid { IfOk result (λ _. found ≡ None) }
    ensures invalid { IfErr result (RefusesField (key_of key.now) found) }
{
    match found {
        Some(field) => Err(Fault::Invalid(key.try_copy()?, field)),
        None => Ok(()),
    }
}

/// Returns whether an object with its defaults can be created under a key, whose name is the object's or was made for it, after
/// the present revision. The errors are the first field that is not valid, and running out of memory, which the selector takes.
pub fn check_create(alloc: Global, object: &Object, key: &Key, present: u64) -> Result<(), Fault>
    ensures valid { IfOk result (λ _. create_fault object.now.kind (key_of key.now).name present object.now.value ≡ None) }
    ensures invalid { IfErr result (RefusesField (key_of key.now) (create_fault object.now.kind (key_of key.now).name present object.now.value)) }
{
    let found = fault(alloc, object, key.name.as_str(), present, true, true)?;
    refuse(key, found)
}

/// Returns whether an object with its defaults can stand in the place of the stored one, under its key, after the present
/// revision. The errors are as those of a create.
pub fn check_update(
    alloc: Global,
    stored: &Object,
    object: &Object,
    key: &Key,
    present: u64,
) -> Result<(), Fault>
    ensures valid { IfOk result (λ _. update_fault object.now.kind (key_of key.now).name present stored.now.value object.now.value ≡ None) }
    ensures invalid { IfErr result (RefusesField (key_of key.now) (update_fault object.now.kind (key_of key.now).name present stored.now.value object.now.value)) }
{
    let adds_none = adds_no_finalizer(stored, object);
    let is_kept = is_selector_kept(alloc, stored, object)?;
    let found = fault(
        alloc,
        object,
        key.name.as_str(),
        present,
        adds_none,
        is_kept,
    )?;
    refuse(key, found)
}

//! What is found in the maps that are looked at.
ghost use Rattle.std.specs.Prelude.{◌≡◌, IfOk, filter, map};
ghost use Rattle.spec_api.specs.Checks.{requirements};
ghost use Rattle.object_keys.specs.Keys.{key_of};
ghost use Rattle.spec_client_go.specs.OwnerReferences.{has_controller};
ghost use Rattle.spec_client_go.specs.OwedKeys.{selects, adopters, dependents_in};
ghost use Rattle.reconcile_types.specs.Entries.{entry_of};

use meta::Object;
use object_keys::Key;
use owner_references::references::namespace_of;
use reconcile_types::{Entry, Seen};
use selector::Selector;
use std::alloc::{AllocError, Global};

/// Returns the selector of an object, if it has one that can be read.
fn selector_of(alloc: Global, object: &Object) -> Result<Option<Selector>, AllocError>
    ensures { IfOk result (λ s. s ≡ requirements object.now.value) }
{
    let Some(spec) = object.member("spec") else {
        return Ok(None);
    };
    let Some(value) = spec.get("selector") else {
        return Ok(None);
    };
    match Selector::of_value(alloc, value) {
        Ok(selector) => Ok(Some(selector)),
        Err(selector::SelectorFault::Malformed) => Ok(None),
        Err(selector::SelectorFault::Invalid) => Ok(None),
        Err(selector::SelectorFault::NoMemory) => Err(AllocError),
    }
}

/// Returns whether the selector of an entry matches the object's labels.
fn selects(alloc: Global, object: &Object, entry: Entry<'_>) -> Result<bool, AllocError>
    ensures { IfOk result (λ b. b ≡ selects object.now.value (entry_of entry.entry)) }
{
    match selector_of(alloc, entry.object)? {
        Some(selector) => Ok(selector.matches(object.metadata_member("labels"))),
        None => Ok(false),
    }
}

/// Returns whether one of the owner references is a controller's.
fn has_controller(alloc: Global, object: &Object) -> Result<bool, AllocError>
    ensures { IfOk result (λ b. b ≡ has_controller object.now.value) }
{
    for owner in object.owners(alloc)? {
        if owner.is_controller {
            return Ok(true);
        }
    }
    Ok(false)
}

/// Returns the keys of entries.
fn keys_of_entries(alloc: Global, entries: Vec<Entry<'_>>) -> Result<Vec<Key>, AllocError>
    ensures { IfOk result (λ v. map key_of v.items ≡ map (λ m. m.0) (map entry_of entries.entry.items)) }
{
    let mut keys = Vec::with_capacity(alloc, entries.len())?;
    for entry in entries {
        keys.push(entry.key.try_copy()?)?;
    }
    Ok(keys)
}

/// Returns the keys of the entries whose selector matches the object's labels.
fn keys_that_select(
    alloc: Global,
    object: &Object,
    entries: Vec<Entry<'_>>,
) -> Result<Vec<Key>, AllocError>
    ensures { IfOk result (λ v. map key_of v.items
        ≡ map (λ m. m.0) (filter (selects object.now.value) (map entry_of entries.entry.items))) }
{
    let mut keys = Vec::new(alloc);
    for entry in entries {
        if selects(alloc, object, entry)? {
            keys.push(entry.key.try_copy()?)?;
        }
    }
    Ok(keys)
}

/// Returns the keys of the ReplicaSets of its namespace that may adopt an object.
pub fn adopters<S: Seen>(alloc: Global, sets: &S, object: &Object) -> Result<Vec<Key>, AllocError>
    ensures { IfOk result (λ v. map key_of v.items ≡ adopters (S.snapshot sets.now).members object.now.value) }
{
    if has_controller(alloc, object)? {
        return Ok(Vec::new(alloc));
    }
    let entries = sets.by_namespace(alloc, namespace_of(object))?;
    keys_that_select(alloc, object, entries)
}

/// Returns the keys of the objects with an owner of this uid.
pub fn dependents_in<S: Seen>(alloc: Global, seen: &S, uid: &str) -> Result<Vec<Key>, AllocError>
    ensures { IfOk result (λ v. map key_of v.items ≡ dependents_in uid.now (S.snapshot seen.now).members) }
{
    keys_of_entries(alloc, seen.by_owner(alloc, uid)?)
}

//! How the owners of an object stand.
ghost use Rattle.std.specs.Prelude.{◌≡◌, IfOk, map, option_map};
ghost use Rattle.std.specs.List.{list_all, list_any};
ghost use Rattle.object_keys.specs.Keys.{key_of};
ghost use Rattle.meta.specs.Owners.{owner_of};
ghost use Rattle.reconcile_types.specs.Hands.{reads_of};
ghost use Rattle.spec_reconcile.specs.Standings.{is_to, waits_for_dependents, standing_of, standing, is_solid, is_waiting};

use meta::finalizers::has_text;
use meta::{Object, OwnerReference};
use owner_references::references::owner_key;
use owner_references::texts::is_text;
use reconcile_types::Read;
use reconcile_types::hands::live;
use spec_reconcile::Standing;
use std::alloc::{AllocError, Global};

/// Returns whether a reference is to this object, by its uid.
pub fn is_to(object: &Object, owner: &OwnerReference<'_>) -> bool
    ensures { result ≡ is_to object.now.value (owner_of owner.now) }
{
    match object.uid() {
        Some(uid) => is_text(uid, owner.uid),
        None => false,
    }
}

/// Returns whether an object is being deleted, and waits until its dependents are gone.
pub fn waits_for_dependents(object: &Object) -> bool
    ensures { result ≡ waits_for_dependents object.now.value }
{
    object.is_being_deleted() && has_text(object.finalizers(), "foregroundDeletion")
}

/// Returns how an owner stands, by what was found under its key.
fn standing_of(owner: &OwnerReference<'_>, found: Option<&Object>) -> Standing
    ensures { result ≡ standing_of (owner_of owner.now) (option_map (λ o. o.now.value) found.entry) }
{
    let Some(object) = found else {
        return Standing::Dangling;
    };
    if !is_to(object, owner) {
        return Standing::Dangling;
    }
    if waits_for_dependents(object) {
        Standing::Waiting
    } else {
        Standing::Solid
    }
}

/// Returns how an owner of what is in a namespace stands, by the live reads. The error is running out of memory.
pub fn standing(
    alloc: Global,
    reads: &[Read],
    namespace: &str,
    owner: &OwnerReference<'_>,
) -> Result<Standing, AllocError>
    ensures { IfOk result (λ s. s ≡ standing (reads_of reads.now) namespace.now (owner_of owner.now)) }
{
    match owner_key(alloc, namespace, owner)? {
        Some(key) => Ok(standing_of(owner, live(reads, &key))),
        None => Ok(Standing::Solid),
    }
}

/// Returns how owners stand, by the live reads. The error is running out of memory.
pub fn standings(
    alloc: Global,
    reads: &[Read],
    namespace: &str,
    owners: &[OwnerReference<'_>],
) -> Result<Vec<Standing>, AllocError>
    ensures { IfOk result (λ v. v.items ≡ map (standing (reads_of reads.now) namespace.now) (map owner_of owners.now)) }
{
    let mut found = Vec::with_capacity(alloc, owners.len())?;
    for owner in owners {
        found.push(standing(alloc, reads, namespace, owner)?)?;
    }
    Ok(found)
}

/// Returns whether an owner is solid.
pub fn is_solid(standing: Standing) -> bool
    ensures { result ≡ is_solid standing }
{
    match standing {
        Standing::Solid => true,
        Standing::Waiting => false,
        Standing::Dangling => false,
    }
}

/// Returns whether an owner waits.
fn is_waiting(standing: Standing) -> bool
    ensures { result ≡ is_waiting standing }
{
    match standing {
        Standing::Solid => false,
        Standing::Waiting => true,
        Standing::Dangling => false,
    }
}

/// Returns whether all owners are solid.
pub fn all_solid(standings: &[Standing]) -> bool
    ensures { result ≡ list_all is_solid standings.now }
{
    for standing in standings {
        if !is_solid(*standing) {
            return false;
        }
    }
    true
}

/// Returns whether an owner is solid.
pub fn any_solid(standings: &[Standing]) -> bool
    ensures { result ≡ list_any is_solid standings.now }
{
    for standing in standings {
        if is_solid(*standing) {
            return true;
        }
    }
    false
}

/// Returns whether an owner waits.
pub fn any_waiting(standings: &[Standing]) -> bool
    ensures { result ≡ list_any is_waiting standings.now }
{
    for standing in standings {
        if is_waiting(*standing) {
            return true;
        }
    }
    false
}

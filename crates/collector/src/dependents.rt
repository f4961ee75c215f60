//! The dependents of an object.
ghost use Rattle.std.specs.Prelude.{◌≡◌, ◌++◌, ◌&&◌, IfOk, OnOk, map};
ghost use Rattle.std.specs.List.{list_any};
ghost use Rattle.serde_json.specs.View.{items_view};
ghost use Rattle.spec_api.specs.Metadata.{owners_in};
ghost use Rattle.spec_client_go.specs.Informers.{of_owner};
ghost use Rattle.reconcile_types.specs.Entries.{entry_of};
ghost use Rattle.reconcile_types.specs.Hands.{looks_by, members_of};
ghost use Rattle.spec_reconcile.specs.GarbageCollection.{is_blocked};
ghost use Rattle.spec_reconcile.specs.Standings.{is_to, waits_for_dependents, with_owner, dependents, blocks};

use crate::standings::{is_to, waits_for_dependents};
use meta::Object;
use meta::owners::owner;
use object_keys::PerKind;
use owner_references::edits::references;
use reconcile_types::{Entry, Seen};
use serde_json::Value;
use std::alloc::{AllocError, Global};

/// Returns the objects of a look with an owner of this uid; a look that was not taken shows none.
fn of_owner<'a, S: Seen>(
    alloc: Global,
    look: &'a Option<S>,
    uid: &str,
) -> Result<Vec<Entry<'a>>, AllocError>
    ensures { IfOk result (λ v. map entry_of v.items ≡ of_owner uid.now (members_of S.snapshot look.now)) }
{
    match look {
        Some(seen) => seen.by_owner(alloc, uid),
        None => Ok(Vec::new(alloc)),
    }
}

/// Appends entries to others. The error is running out of memory, after which some may be there.
fn append<'a>(found: &mut Vec<Entry<'a>>, more: Vec<Entry<'a>>) -> Result<(), AllocError>
    ensures { OnOk result (map entry_of found.new.items ≡ map entry_of found.old.items ++ map entry_of more.entry.items) }
{
    for entry in more {
        found.push(entry)?;
    }
    Ok(())
}

/// Returns the objects of all kinds with an owner of this uid.
fn with_owner<'a, S: Seen>(
    alloc: Global,
    looks: &'a PerKind<Option<S>>,
    uid: &str,
) -> Result<Vec<Entry<'a>>, AllocError>
    ensures { IfOk result (λ v. map entry_of v.items ≡ with_owner (looks_by (members_of S.snapshot) looks.now) uid.now) }
{
    let mut found = of_owner(alloc, &looks.config_maps, uid)?;
    append(&mut found, of_owner(alloc, &looks.pods, uid)?)?;
    append(&mut found, of_owner(alloc, &looks.replica_sets, uid)?)?;
    append(&mut found, of_owner(alloc, &looks.deployments, uid)?)?;
    Ok(found)
}

/// Returns the dependents of an object. The error is running out of memory.
pub fn dependents<'a, S: Seen>(
    alloc: Global,
    looks: &'a PerKind<Option<S>>,
    object: &Object,
) -> Result<Vec<Entry<'a>>, AllocError>
    ensures { IfOk result (λ v. map entry_of v.items ≡ dependents (looks_by (members_of S.snapshot) looks.now) object.now.value) }
{
    match object.uid() {
        Some(uid) => with_owner(alloc, looks, uid),
        None => Ok(Vec::new(alloc)),
    }
}

/// Returns whether one of the references blocks the deletion of this owner.
fn any_blocks(object: &Object, references: &[Value]) -> bool
    ensures { result ≡ list_any (λ o. is_to object.now.value o && o.blocks_deletion) (owners_in (items_view references.now)) }
{
    for reference in references {
        let owner = owner(reference);
        if is_to(object, &owner) && owner.blocks_deletion {
            return true;
        }
    }
    false
}

/// Returns whether a dependent blocks the deletion of an object.
fn blocks(object: &Object, dependent: &Object) -> bool
    ensures { result ≡ blocks object.now.value dependent.now.value }
{
    any_blocks(object, references(dependent))
}

/// Returns whether one of the dependents blocks the deletion of an object.
pub fn is_blocked(object: &Object, dependents: &[Entry<'_>]) -> bool
    ensures { result ≡ is_blocked object.now.value (map entry_of dependents.now) }
{
    for dependent in dependents {
        if blocks(object, dependent.object) {
            return true;
        }
    }
    false
}

/// Returns whether one of the dependents waits for its own.
pub fn any_waits(dependents: &[Entry<'_>]) -> bool
    ensures { result ≡ list_any (λ m. waits_for_dependents m.1) (map entry_of dependents.now) }
{
    for dependent in dependents {
        if waits_for_dependents(dependent.object) {
            return true;
        }
    }
    false
}

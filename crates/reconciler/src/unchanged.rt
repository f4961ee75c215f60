//! What is looked at again after a list that is not the first.
ghost use Rattle.std.specs.Prelude.{◌≡◌, ◌++◌, IfOk, map, option_map};
ghost use Rattle.spec_client_go.specs.Shifts.{shift_at};
ghost use Rattle.object_keys.specs.Keys.{key_of};
ghost use Rattle.indexer.specs.Shifted.{shift_of};
ghost use Rattle.reconciler.specs.Owing.{AreOwed};
ghost use Rattle.reconciler.specs.Unchanged.{removed_in, unchanged, all_unchanged};

use crate::owing::joined;
use crate::reconcilers::Reconciler;
use indexer::{Indexed, Shift};
use keyed_queues::Named;
use object_keys::{Key, PerKind};
use reconcile_types::Entry;
use reflector::{Delta, SharedObject};
use std::alloc::{AllocError, Global};

/// Returns a copy of an object, which is shared, if there is one. The error is running out of memory.
fn copy_of(object: &Option<SharedObject>) -> Result<Option<SharedObject>, AllocError>
    ensures { IfOk result (λ o. option_map (λ x. x.value) o ≡ option_map (λ x. x.value) object.now) }
{
    match object {
        Some(object) => Ok(Some(object.try_copy()?)),
        None => Ok(None),
    }
}

/// Returns the object that is removed, if one is. The error is running out of memory.
fn removed(removals: &[Shift]) -> Result<Option<SharedObject>, AllocError>
    ensures { IfOk result (λ o. option_map (λ x. x.value) o ≡ removed_in (map shift_of removals.now)) }
{
    match removals.first() {
        Some(removal) => copy_of(&removal.old),
        None => Ok(None),
    }
}

/// Returns what is under a key as a change that leaves it as it is: what would be removed is what is there. The error is running out of memory.
fn unchanged_at(alloc: Global, objects: &Indexed, key: &Key) -> Result<Shift, AllocError>
    ensures { IfOk result (λ s. shift_of s ≡ shift_at objects.now.members objects.now.members (key_of key.now)) }
{
    let removals = objects.shifts_of(alloc, &Delta::Remove(objects.revision(), key.try_copy()?))?;
    let found = removed(removals.as_slice())?;
    Ok(Shift {
        key: key.try_copy()?,
        old: copy_of(&found)?,
        new: found,
    })
}

/// Returns the keys that objects of a map owe, each as a change that leaves it as it is. The error is running out of memory.
fn owed_at<K: Named, C: Reconciler<K>>(
    alloc: Global,
    controller: &C,
    objects: &Indexed,
    entries: &[Entry<'_>],
    shown: &PerKind<Indexed>,
) -> Result<Vec<K>, AllocError>
    ensures { IfOk result (λ keys. AreOwed (C.owes shown.now) (map (λ e. shift_at objects.now.members objects.now.members (key_of e.key.now)) entries.now) keys.items) }
{
    let mut keys = Vec::new(alloc);
    for entry in entries {
        let change = unchanged_at(alloc, objects, entry.key)?;
        let mut more = controller.keys_of(alloc, &change, shown)?;
        keys.append(&mut more)?;
    }
    Ok(keys)
}

/// Returns the keys that all objects of a map owe. The error is running out of memory.
fn owed_in<K: Named, C: Reconciler<K>>(
    alloc: Global,
    controller: &C,
    objects: &Indexed,
    shown: &PerKind<Indexed>,
) -> Result<Vec<K>, AllocError>
    ensures { IfOk result (λ keys. AreOwed (C.owes shown.now) (unchanged objects.now.members) keys.items) }
{
    let entries = objects.list(alloc)?;
    owed_at(alloc, controller, objects, entries.as_slice(), shown)
}

/// Returns the keys that all objects owe which are shown, of each kind: of one that is not followed nothing is. The error is running out of memory.
pub fn owed_again<K: Named, C: Reconciler<K>>(
    alloc: Global,
    controller: &C,
    shown: &PerKind<Indexed>,
) -> Result<Vec<K>, AllocError>
    ensures { IfOk result (λ keys. AreOwed (C.owes shown.now) (all_unchanged shown.now) keys.items) }
{
    let config_maps = owed_in(alloc, controller, &shown.config_maps, shown)?;
    let pods = owed_in(alloc, controller, &shown.pods, shown)?;
    let replica_sets = owed_in(alloc, controller, &shown.replica_sets, shown)?;
    let deployments = owed_in(alloc, controller, &shown.deployments, shown)?;
    let apps = joined(replica_sets, deployments)?;
    let later = joined(pods, apps)?;
    joined(config_maps, later)
}

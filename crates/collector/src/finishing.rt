//! What the collector asks of an object that is being deleted.
ghost use Rattle.std.specs.Prelude.{◌≡◌, ◌++◌, ◌∷◌, [], IfOk, map, if◌then◌else◌};
ghost use Rattle.spec_api.specs.Deletion.{orphan, foreground};
ghost use Rattle.spec_client_go.specs.Commands.{update};
ghost use Rattle.object_keys.specs.Keys.{key_of};
ghost use Rattle.reconcile_types.specs.Commands.{command_of};
ghost use Rattle.reconcile_types.specs.Entries.{entry_of};
ghost use Rattle.reconcile_types.specs.Hands.{looks_by, members_of};
ghost use Rattle.spec_reconcile.specs.GarbageCollection.{orphaned, is_blocked, finish};
ghost use Rattle.spec_reconcile.specs.MetadataEdits.{without_finalizer};
ghost use Rattle.spec_reconcile.specs.Standings.{dependents};

use crate::commands::{one, update};
use crate::dependents::{dependents, is_blocked};
use crate::edits::{without_finalizer, without_owner};
use meta::Object;
use meta::finalizers::has_text;
use object_keys::{Key, PerKind};
use reconcile_types::{Command, Entry, Seen};
use std::alloc::{AllocError, Global};

/// Returns the updates of dependents without their references to an object.
fn orphaned(
    alloc: Global,
    object: &Object,
    dependents: &[Entry<'_>],
) -> Result<Vec<Command>, AllocError>
    ensures { IfOk result (λ v. map command_of v.items ≡ orphaned object.now.value (map entry_of dependents.now)) }
{
    let mut commands = Vec::with_capacity(alloc, dependents.len())?;
    for dependent in dependents {
        let free = without_owner(alloc, object, dependent.object)?;
        commands.push(update(dependent.key, free)?)?;
    }
    Ok(commands)
}

/// Returns the updates of dependents without their references to an object, and then of the object without `orphan`.
fn orphan_all(
    alloc: Global,
    key: &Key,
    object: &Object,
    dependents: &[Entry<'_>],
) -> Result<Vec<Command>, AllocError>
    ensures { IfOk result (λ v. map command_of v.items
        ≡ orphaned object.now.value (map entry_of dependents.now) ++ update (key_of key.now) (without_finalizer orphan object.now.value) ∷ []) }
{
    let mut commands = orphaned(alloc, object, dependents)?;
    let left = without_finalizer(alloc, object, "orphan")?;
    commands.push(update(key, left)?)?;
    Ok(commands)
}

/// Returns what is asked of an object that waits for its dependents: nothing while one of them blocks it.
fn wait_for_all(
    alloc: Global,
    key: &Key,
    object: &Object,
    dependents: &[Entry<'_>],
) -> Result<Vec<Command>, AllocError>
    ensures { IfOk result (λ v. map command_of v.items
        ≡ (if is_blocked object.now.value (map entry_of dependents.now) then [] else update (key_of key.now) (without_finalizer foreground object.now.value) ∷ [])) }
{
    if is_blocked(object, dependents) {
        return Ok(Vec::new(alloc));
    }
    let left = without_finalizer(alloc, object, "foregroundDeletion")?;
    let command = update(key, left)?;
    one(alloc, command)
}

/// Returns what is asked of an object that is being deleted: its dependents lose their references to it, or are waited for; then it loses the
/// finalizer of the policy. The error is running out of memory.
pub fn finish<S: Seen>(
    alloc: Global,
    key: &Key,
    object: &Object,
    looks: &PerKind<Option<S>>,
) -> Result<Vec<Command>, AllocError>
    ensures { IfOk result (λ v. map command_of v.items
        ≡ finish (key_of key.now) object.now.value (dependents (looks_by (members_of S.snapshot) looks.now) object.now.value)) }
{
    if has_text(object.finalizers(), "orphan") {
        let dependents = dependents(alloc, looks, object)?;
        return orphan_all(alloc, key, object, dependents.as_slice());
    }
    if has_text(object.finalizers(), "foregroundDeletion") {
        let dependents = dependents(alloc, looks, object)?;
        return wait_for_all(alloc, key, object, dependents.as_slice());
    }
    Ok(Vec::new(alloc))
}

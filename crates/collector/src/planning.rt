//! What the collector asks of the server.
ghost use Rattle.std.specs.Prelude.{◌≡◌, IfOk, map, if◌then◌else◌};
ghost use Rattle.spec_api.specs.Metadata.{owners};
ghost use Rattle.object_keys.specs.Keys.{key_of};
ghost use Rattle.spec_client_go.specs.OwnerReferences.{namespace_of};
ghost use Rattle.reconcile_types.specs.Commands.{command_of, commands_of};
ghost use Rattle.reconcile_types.specs.Entries.{entry_of};
ghost use Rattle.reconcile_types.specs.Hands.{hand_of, reads_of, looks_by, members_of};
ghost use Rattle.spec_reconcile.specs.GarbageCollection.{plan, collect, own_policy, remove, remove_after, is_between};
ghost use Rattle.spec_reconcile.specs.Standings.{standing, standings, dependents};
ghost use Rattle.collector.specs.Removed.{remove_by};

use crate::commands::{delete, one, remove, update};
use crate::dependents::{any_waits, dependents};
use crate::edits::{blocking_nobody, with_solid_owners};
use crate::finishing::finish;
use crate::standings::{all_solid, any_solid, any_waiting, standings};
use meta::Object;
use meta::finalizers::has_text;
use object_keys::{Key, PerKind};
use owner_references::references::namespace_of;
use reconcile_types::hands::live;
use reconcile_types::{Command, Entry, Hand, Plan, Read, Seen, Version};
use spec_api::policies::Policy;
use spec_reconcile::Standing;
use std::alloc::{AllocError, Global};

/// Returns the policy that an object's finalizers stand for.
fn own_policy(object: &Object) -> Policy
    ensures { result ≡ own_policy object.now.value }
{
    if has_text(object.finalizers(), "orphan") {
        Policy::Orphan
    } else if has_text(object.finalizers(), "foregroundDeletion") {
        Policy::Foreground
    } else {
        Policy::Background
    }
}

/// Returns the delete of an object after its dependents; where one of these waits for its own, no owner waits for it any
/// more first.
fn remove_after(
    alloc: Global,
    key: &Key,
    object: &Object,
    dependents: &[Entry<'_>],
) -> Result<Vec<Command>, AllocError>
    ensures { IfOk result (λ v. map command_of v.items ≡ remove_after (key_of key.now) object.now.value (map entry_of dependents.now)) }
{
    if !any_waits(dependents) {
        return remove(alloc, key, object, Policy::Foreground);
    }
    let free = blocking_nobody(alloc, object)?;
    let mut commands = one(alloc, update(key, free)?)?;
    commands.push(delete(
        alloc,
        key,
        object,
        Some(Version::Answered),
        Policy::Foreground,
    )?)?;
    Ok(commands)
}

/// Returns the delete of an object that has no owner which is solid.
fn remove_by<S: Seen>(
    alloc: Global,
    key: &Key,
    object: &Object,
    standings: &[Standing],
    looks: &PerKind<Option<S>>,
) -> Result<Vec<Command>, AllocError>
    ensures { IfOk result (λ v. map command_of v.items ≡ remove_by (key_of key.now) object.now.value standings.now
        (dependents (looks_by (members_of S.snapshot) looks.now) object.now.value)) }
{
    if any_waiting(standings) {
        let dependents = dependents(alloc, looks, object)?;
        if !dependents.is_empty() {
            return remove_after(alloc, key, object, dependents.as_slice());
        }
    }
    remove(alloc, key, object, own_policy(object))
}

/// Returns what is asked of an object that is not being deleted, by how its owners stand: it stays where all are solid, with
/// some of them it keeps these, and with none it is deleted.
fn collect_by<S: Seen>(
    alloc: Global,
    reads: &[Read],
    key: &Key,
    object: &Object,
    found: &[Standing],
    looks: &PerKind<Option<S>>,
) -> Result<Vec<Command>, AllocError>
    requires { found.now ≡ standings (reads_of reads.now) object.now.value }
    ensures { IfOk result (λ v. map command_of v.items ≡ collect (reads_of reads.now) (key_of key.now) object.now.value
        (dependents (looks_by (members_of S.snapshot) looks.now) object.now.value)) }
{
    if all_solid(found) {
        return Ok(Vec::new(alloc));
    }
    if any_solid(found) {
        let kept = with_solid_owners(alloc, reads, namespace_of(object), object)?;
        let command = update(key, kept)?;
        return one(alloc, command);
    }
    remove_by(alloc, key, object, found, looks)
}

/// Returns what is asked of an object that is not being deleted.
fn collect<S: Seen>(
    alloc: Global,
    reads: &[Read],
    key: &Key,
    object: &Object,
    looks: &PerKind<Option<S>>,
) -> Result<Vec<Command>, AllocError>
    ensures { IfOk result (λ v. map command_of v.items ≡ collect (reads_of reads.now) (key_of key.now) object.now.value
        (dependents (looks_by (members_of S.snapshot) looks.now) object.now.value)) }
{
    let owners = object.owners(alloc)?;
    let standings = standings(alloc, reads, namespace_of(object), owners.as_slice())?;
    collect_by(alloc, reads, key, object, standings.as_slice(), looks)
}

/// Returns what is asked, one command after another.
fn commands<S: Seen>(alloc: Global, hand: &Hand<S>) -> Result<Vec<Command>, AllocError>
    ensures { IfOk result (λ v. map command_of v.items ≡ plan (hand_of S.snapshot hand.now)) }
{
    let reads = hand.reads.as_slice();
    let Some(object) = live(reads, &hand.key) else {
        return Ok(Vec::new(alloc));
    };
    if object.is_being_deleted() {
        finish(alloc, &hand.key, object, &hand.looks)
    } else {
        collect(alloc, reads, &hand.key, object, &hand.looks)
    }
}

/// Returns what the collector asks of the server, once all that it asks for was read. The error is running out of memory.
pub fn plan<S: Seen>(alloc: Global, hand: &Hand<S>) -> Result<Plan, AllocError>
    ensures { IfOk result (λ p. commands_of p ≡ plan (hand_of S.snapshot hand.now)) }
{
    let commands = commands(alloc, hand)?;
    Ok(Plan { commands })
}

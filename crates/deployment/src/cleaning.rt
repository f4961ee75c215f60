//! Which old sets are deleted.
ghost use Rattle.std.specs.Prelude.{◌≡◌, IfOk, Some, filter, map, not};
ghost use Rattle.serde_json.specs.Data.{Data};
ghost use Rattle.spec_api.specs.Keys.{Key};
ghost use Rattle.spec_api.specs.Metadata.{is_being_deleted};
ghost use Rattle.spec_reconcile.specs.Deployments.{all_but_last, clean_up, delete_set, forget, history, is_complete, is_spent, summary};
ghost use Rattle.deployment.specs.Sets.{rollout_seen};
ghost use Rattle.reconcile_types.specs.Commands.{command_of};
ghost use Rattle.reconcile_types.specs.Entries.{entry_of};

use crate::ages::sort_by_revision;
use crate::rollout::Rollout;
use meta::Object;
use reconcile_types::{Command, Entry, count_in_spec, count_in_status};
use spec_reconcile::Summary;
use std::alloc::{AllocError, Global};

/// Returns whether a set has no pods and is to have none, and its controller has seen that.
fn is_spent(set: &Object) -> bool
    ensures { result ≡ is_spent set.now.value }
{
    count_in_spec(set, "replicas") == 0
        && count_in_status(set, "replicas") == 0
        && set.generation() <= count_in_status(set, "observedGeneration")
}

/// Returns the sets that are not being deleted.
fn staying<'a>(alloc: Global, sets: &[Entry<'a>]) -> Result<Vec<Entry<'a>>, AllocError>
    ensures { IfOk result (λ v. map entry_of v.items
        ≡ filter (λ (s : Key × Data). not (is_being_deleted s.1)) (map entry_of sets.now)) }
{
    let mut staying = Vec::new(alloc);
    for set in sets {
        if !set.object.is_being_deleted() {
            staying.push(*set)?;
        }
    }
    Ok(staying)
}

/// Returns the old sets that are not being deleted, by revision and then by age.
fn history<'a>(alloc: Global, old: &[Entry<'a>]) -> Result<Vec<Entry<'a>>, AllocError>
    ensures { IfOk result (λ v. map entry_of v.items ≡ history (map entry_of old.now)) }
{
    let mut history = staying(alloc, old)?;
    sort_by_revision(&mut history)?;
    Ok(history)
}

/// Returns the old sets that are not being deleted, but for the last so many revisions.
fn earlier_ones<'a>(
    alloc: Global,
    limit: u64,
    old: &[Entry<'a>],
) -> Result<Vec<Entry<'a>>, AllocError>
    ensures { IfOk result (λ v. map entry_of v.items ≡ all_but_last limit (history (map entry_of old.now))) }
{
    let mut history = history(alloc, old)?;
    let count = (history.as_slice().len() as u64).saturating_sub(limit);
    history.truncate(count as usize);
    Ok(history)
}

/// Returns the command that deletes a set, by its uid.
fn delete_set(alloc: Global, set: &Entry<'_>) -> Result<Command, AllocError>
    ensures { IfOk result (λ c. command_of c ≡ delete_set (entry_of set.now)) }
{
    let uid = match set.object.uid() {
        Some(uid) => Some(String::from_str(alloc, uid)?),
        None => None,
    };
    Ok(Command::Delete {
        key: set.key.try_copy()?,
        uid,
        version: None,
        policy: None,
    })
}

/// Returns the commands that delete those of the sets that are spent.
fn delete_spent(alloc: Global, sets: &[Entry<'_>]) -> Result<Vec<Command>, AllocError>
    ensures { IfOk result (λ v. map command_of v.items
        ≡ map delete_set (filter (λ (s : Key × Data). is_spent s.1) (map entry_of sets.now))) }
{
    let mut commands = Vec::new(alloc);
    for set in sets {
        if is_spent(set.object) {
            commands.push(delete_set(alloc, set)?)?;
        }
    }
    Ok(commands)
}

/// Returns whether all pods that are wanted are there, of the new template and available.
fn is_complete(wanted: u64, counts: &Summary) -> bool
    ensures { result ≡ is_complete wanted counts.now }
{
    counts.updated == wanted
        && counts.replicas == wanted as u128
        && counts.available == wanted as u128
}

/// Returns the commands that delete what is spent of all old sets but the last so many.
fn forget(alloc: Global, limit: u64, old: &[Entry<'_>]) -> Result<Vec<Command>, AllocError>
    ensures { IfOk result (λ v. map command_of v.items ≡ forget limit (map entry_of old.now)) }
{
    let earlier = earlier_ones(alloc, limit, old)?;
    delete_spent(alloc, earlier.as_slice())
}

/// Returns the commands that delete old sets that nobody needs. The error is running out of memory.
pub(crate) fn clean_up(
    alloc: Global,
    rollout: &Rollout<'_>,
    counts: &Summary,
) -> Result<Vec<Command>, AllocError>
    requires { counts.now ≡ summary (rollout_seen rollout.now) }
    ensures { IfOk result (λ v. map command_of v.items ≡ clean_up (rollout_seen rollout.now)) }
{
    if !is_complete(count_in_spec(rollout.deployment, "replicas"), counts) {
        return Ok(Vec::new(alloc));
    }
    let limit = count_in_spec(rollout.deployment, "revisionHistoryLimit");
    forget(alloc, limit, rollout.old.as_slice())
}

//! The status of a Deployment.
ghost use Rattle.std.specs.Prelude.{◌≡◌, ◌++◌, ◌∷◌, [], ◌≤◌, IfOk, OnOk, map};
ghost use Rattle.serde_json.specs.Data.{object, put};
ghost use Rattle.spec_api.specs.Replacements.{says_the_same};
ghost use Rattle.spec_api.specs.Values.{members_of};
ghost use Rattle.spec_client_go.specs.Commands.{update_status};
ghost use Rattle.object_keys.specs.Keys.{key_of};
ghost use Rattle.spec_reconcile.specs.Deployments.{asked_by, counted, report, sets, sum_of, summary, updated_pods, with_summary};
ghost use Rattle.spec_reconcile.specs.Statuses.{report_status, status, with_status};
ghost use Rattle.deployment.specs.Sets.{rollout_seen};
ghost use Rattle.reconcile_types.specs.Commands.{command_of};
ghost use Rattle.reconcile_types.specs.Entries.{entry_of};

use crate::rolling_numbers::total_asked;
use crate::rollout::{Rollout, all_sets, tallies};
use meta::Object;
use reconcile_types::{Command, Entry, count_in_status, status};
use spec_reconcile::Summary;
use std::alloc::{AllocError, Global};

/// Returns the sum of a count of the status of sets.
fn sum_of(name: &str, sets: &[Entry<'_>]) -> u128
    ensures sum { result ≡ sum_of name.now (map entry_of sets.now) }
    ensures small { result ≤ 340282366920938463426481119284349108225 }
{
    let mut sum: u128 = 0;
    for set in sets {
        sum += count_in_status(set.object, name) as u128;
    }
    sum
}

/// Returns how many pods the new set has.
fn updated_pods(rollout: &Rollout<'_>) -> u64
    ensures { result ≡ updated_pods (rollout_seen rollout.now).new }
{
    match &rollout.new {
        Some(new) => count_in_status(new.object, "replicas"),
        None => 0,
    }
}

/// Returns how many pods sets are to have. The error is running out of memory.
fn asked_by(alloc: Global, sets: &[Entry<'_>]) -> Result<u128, AllocError>
    ensures { IfOk result (λ n. n ≡ asked_by (map entry_of sets.now)) }
{
    let tallies = tallies(alloc, sets)?;
    Ok(total_asked(tallies.as_slice()))
}

/// Returns what the status of a Deployment is to say, of all its sets, and of how many pods they are to have.
fn summary_of(rollout: &Rollout<'_>, all: &[Entry<'_>], asked: u128) -> Summary
    requires all { map entry_of all.now ≡ sets (rollout_seen rollout.now) }
    requires asked { asked ≡ asked_by (map entry_of all.now) }
    ensures { result ≡ summary (rollout_seen rollout.now) }
{
    let available = sum_of("availableReplicas", all);
    Summary {
        replicas: sum_of("replicas", all),
        ready: sum_of("readyReplicas", all),
        available,
        updated: updated_pods(rollout),
        unavailable: asked.saturating_sub(available),
        generation: rollout.deployment.generation(),
    }
}

/// Returns what the status of a Deployment is to say. The error is running out of memory.
pub(crate) fn summary(alloc: Global, rollout: &Rollout<'_>) -> Result<Summary, AllocError>
    ensures { IfOk result (λ c. c ≡ summary (rollout_seen rollout.now)) }
{
    let sets = all_sets(alloc, rollout)?;
    let asked = asked_by(alloc, sets.as_slice())?;
    Ok(summary_of(rollout, sets.as_slice(), asked))
}

/// Returns the object with a count at a member.
fn with_count(alloc: Global, earlier: Object, name: &str, count: u128) -> Result<Object, AllocError>
    ensures { IfOk result (λ o. o.value ≡ object (put name.now (counted count) (members_of earlier.value))) }
{
    reconcile_types::with_count(alloc, earlier, name, count.min(u64::MAX as u128) as u64)
}

/// Returns a status with these counts. The error is running out of memory.
fn with_summary(alloc: Global, status: Object, counts: Summary) -> Result<Object, AllocError>
    ensures { IfOk result (λ o. o.value ≡ object (with_summary counts (members_of status.value))) }
{
    let status = with_count(
        alloc,
        status,
        "observedGeneration",
        counts.generation as u128,
    )?;
    let status = with_count(alloc, status, "unavailableReplicas", counts.unavailable)?;
    let status = with_count(alloc, status, "updatedReplicas", counts.updated as u128)?;
    let status = with_count(alloc, status, "availableReplicas", counts.available)?;
    let status = with_count(alloc, status, "readyReplicas", counts.ready)?;
    with_count(alloc, status, "replicas", counts.replicas)
}

/// Adds the command that updates the status of a Deployment, where it changes. The error is running out of memory.
pub(crate) fn add_report(
    alloc: Global,
    rollout: &Rollout<'_>,
    counts: Summary,
    commands: &mut Vec<Command>,
) -> Result<(), AllocError>
    requires { counts ≡ summary (rollout_seen rollout.now) }
    ensures { OnOk result (map command_of commands.new.items
        ≡ map command_of commands.old.items ++ report (rollout_seen rollout.now)) }
{
    let new = with_summary(alloc, status(alloc, rollout.deployment)?, counts)?;
    reconcile_types::add_report(alloc, rollout.key, rollout.deployment, new, commands)
}

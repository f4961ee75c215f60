//! A rolling update.
ghost use Rattle.std.specs.Prelude.{◌≡◌, ◌∷◌, IfOk, Some, map};
ghost use Rattle.spec_reconcile.specs.Counts.{replicas};
ghost use Rattle.spec_reconcile.specs.Deployments.{asked_by, clean_up, due, first_of, pace_of, renew, roll, roll_with, scale_each, summary, tally};
ghost use Rattle.spec_reconcile.specs.Rollouts.{resized, shrunk};
ghost use Rattle.deployment.specs.Sets.{rollout_seen};
ghost use Rattle.reconcile_types.specs.Commands.{command_of};
ghost use Rattle.reconcile_types.specs.Entries.{entry_of};

use crate::cleaning::clean_up;
use crate::making::make;
use crate::pace::pace_of;
use crate::rolling_numbers::{growth, resized, shrunk, total_asked};
use crate::rollout::{Rollout, due, tallies, tally};
use crate::scaling::{renew, scale_each};
use reconcile_types::{Command, Entry};
use spec_reconcile::{Pace, Summary};
use std::alloc::{AllocError, Global};

/// Returns the update by which the new set grows or shrinks, and gets the revision that is due.
fn resize(
    alloc: Global,
    rollout: &Rollout<'_>,
    pace: Pace,
    new: &Entry<'_>,
) -> Result<Vec<Command>, AllocError>
    ensures { IfOk result (λ v. map command_of v.items ≡ renew (entry_of new.now)
        (resized pace (asked_by (entry_of new.now ∷ (rollout_seen rollout.now).old)) (replicas (entry_of new.now).1))
        (due (rollout_seen rollout.now))) }
{
    let old = tallies(alloc, rollout.old.as_slice())?;
    let replicas = tally(new).replicas;
    let all = total_asked(old.as_slice()) + replicas as u128;
    renew(alloc, new, resized(pace, all, replicas), due(rollout))
}

/// Returns the updates by which the old sets shrink.
fn shrink(
    alloc: Global,
    rollout: &Rollout<'_>,
    pace: Pace,
    new: &Entry<'_>,
) -> Result<Vec<Command>, AllocError>
    ensures { IfOk result (λ v. map command_of v.items ≡ scale_each (rollout_seen rollout.now).old
        (shrunk pace (tally (entry_of new.now)) (map tally (rollout_seen rollout.now).old))) }
{
    let old = tallies(alloc, rollout.old.as_slice())?;
    let numbers = shrunk(alloc, pace, tally(new), old.as_slice())?;
    scale_each(alloc, rollout.old.as_slice(), numbers.as_slice())
}

/// Returns the commands where the new set stays: the old ones shrink, else what nobody needs is deleted.
fn shrink_or_clean(
    alloc: Global,
    rollout: &Rollout<'_>,
    pace: Pace,
    new: &Entry<'_>,
    counts: &Summary,
) -> Result<Vec<Command>, AllocError>
    requires { counts.now ≡ summary (rollout_seen rollout.now) }
    ensures { IfOk result (λ v. map command_of v.items ≡ first_of (scale_each (rollout_seen rollout.now).old
        (shrunk pace (tally (entry_of new.now)) (map tally (rollout_seen rollout.now).old))) (clean_up (rollout_seen rollout.now))) }
{
    let commands = shrink(alloc, rollout, pace, new)?;
    if commands.as_slice().len() != 0 {
        return Ok(commands);
    }
    clean_up(alloc, rollout, counts)
}

/// Returns the commands of a step where the new set is there.
fn roll_on(
    alloc: Global,
    rollout: &Rollout<'_>,
    pace: Pace,
    new: &Entry<'_>,
    counts: &Summary,
) -> Result<Vec<Command>, AllocError>
    requires { counts.now ≡ summary (rollout_seen rollout.now) }
    ensures { IfOk result (λ v. map command_of v.items ≡ roll_with (rollout_seen rollout.now) pace (Some (entry_of new.now))) }
{
    let commands = resize(alloc, rollout, pace, new)?;
    if commands.as_slice().len() != 0 {
        return Ok(commands);
    }
    shrink_or_clean(alloc, rollout, pace, new, counts)
}

/// Returns the commands of a step: the new set is made, else it is scaled, else the old ones are, else what nobody needs is
/// deleted. The error is running out of memory.
pub(crate) fn roll(
    alloc: Global,
    rollout: &Rollout<'_>,
    counts: &Summary,
) -> Result<Vec<Command>, AllocError>
    requires { counts.now ≡ summary (rollout_seen rollout.now) }
    ensures { IfOk result (λ v. map command_of v.items ≡ roll (rollout_seen rollout.now)) }
{
    let pace = pace_of(rollout.deployment);
    match &rollout.new {
        Some(new) => roll_on(alloc, rollout, pace, new, counts),
        None => {
            let old = tallies(alloc, rollout.old.as_slice())?;
            make(alloc, rollout, growth(pace, total_asked(old.as_slice()), 0))
        }
    }
}

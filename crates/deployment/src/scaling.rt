//! The commands by which sets are to have another number of pods.
ghost use Rattle.std.specs.Prelude.{◌≡◌, ◌++◌, IfOk, OnOk, map};
ghost use Rattle.spec_reconcile.specs.Deployments.{renew, scale, scale_each};
ghost use Rattle.reconcile_types.specs.Commands.{command_of};
ghost use Rattle.reconcile_types.specs.Entries.{entry_of};

use crate::edits::with_replicas;
use crate::revisions::{raised, revision};
use reconcile_types::{Command, Entry, count_in_spec};
use std::alloc::{AllocError, Global};

/// Adds the update of a set that is to have another number of pods. The error is running out of memory.
fn add_scale(
    alloc: Global,
    set: &Entry<'_>,
    replicas: u64,
    commands: &mut Vec<Command>,
) -> Result<(), AllocError>
    ensures { OnOk result (map command_of commands.new.items
        ≡ map command_of commands.old.items ++ scale (entry_of set.now) replicas) }
{
    if count_in_spec(set.object, "replicas") == replicas {
        return Ok(());
    }
    let object = with_replicas(alloc, set.object.try_copy()?, replicas)?;
    let key = set.key.try_copy()?;
    commands.push(Command::Update { key, object })?;
    Ok(())
}

/// Returns the updates of the sets that are to have other numbers of pods. The error is running out of memory.
pub(crate) fn scale_each(
    alloc: Global,
    sets: &[Entry<'_>],
    numbers: &[u64],
) -> Result<Vec<Command>, AllocError>
    ensures { IfOk result (λ v. map command_of v.items ≡ scale_each (map entry_of sets.now) numbers.now) }
{
    let mut commands = Vec::new(alloc);
    for (set, replicas) in sets.iter().zip(numbers) {
        add_scale(alloc, set, *replicas, &mut commands)?;
    }
    Ok(commands)
}

/// Returns the update of the new set, where it is to have another number of pods or its revision is below the one due. The
/// error is running out of memory.
pub(crate) fn renew(
    alloc: Global,
    set: &Entry<'_>,
    replicas: u64,
    due: u64,
) -> Result<Vec<Command>, AllocError>
    ensures { IfOk result (λ v. map command_of v.items ≡ renew (entry_of set.now) replicas due) }
{
    let mut commands = Vec::new(alloc);
    if count_in_spec(set.object, "replicas") == replicas && revision(set.object) >= due {
        return Ok(commands);
    }
    let object = with_replicas(alloc, raised(alloc, set.object, due)?, replicas)?;
    let key = set.key.try_copy()?;
    commands.push(Command::Update { key, object })?;
    Ok(commands)
}

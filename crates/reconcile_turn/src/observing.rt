//! What is expected of a turn's pods, and what is expected no longer.
ghost use Rattle.std.specs.Prelude.{◌≡◌, ◌++◌, ◌<◌, ◌^◌, IfOk, OnOk, length, map, filter, filter_map, replicate, slice_get, string_bytes};
ghost use Rattle.spec_client_go.specs.Boards.{creation_observed, deletion_observed};
ghost use Rattle.work_board.specs.Seen.{owner_of, observation_of};
ghost use Rattle.spec_sim.specs.Turns.{as_observed, creates_pod, expected_of, pod_deleted};
ghost use Rattle.reconcile_types.specs.Commands.{command_of};
ghost use Rattle.reconcile_turn.specs.Answers.{answers_of, is_undone, undone_of};
ghost use Rattle.reconcile_turn.specs.Pods.{commands_lent};
ghost use Rattle.reconcile_turn.specs.Seen.{expected_of as expected_seen};

use crate::answers::CommandAnswer;
use crate::expected::Expected;
use crate::pods::{creations, deletions};
use reconcile_types::Command;
use std::alloc::{AllocError, Global};
use std::sync::Arc;
use work_board::{Observation, Owner};

/// Returns whether the command at a place is not done: it was refused, or has no answer. Of a lost one it is not known. It takes
/// no memory.
fn is_undone(answers: &[Arc<CommandAnswer, Global>], place: usize) -> bool
    ensures { result ≡ is_undone (slice_get (answers_of answers.now) place) }
{
    match answers.get(place) {
        Some(answer) => answer.is_refused(),
        None => true,
    }
}

/// Returns the commands that were refused, and those that have no answer. The error is running out of memory.
pub fn undone<'a>(
    alloc: Global,
    commands: &'a [Command],
    answers: &[Arc<CommandAnswer, Global>],
) -> Result<Vec<&'a Command>, AllocError>
    ensures { IfOk result (λ v. commands_lent v.items ≡ undone_of (map command_of commands.now) (answers_of answers.now)) }
{
    let mut left = Vec::new(alloc);
    for (place, command) in commands.iter().enumerate() {
        if is_undone(answers, place) {
            left.push(command)?;
        }
    }
    Ok(left)
}

/// Returns what commands make of a ReplicaSet's pods. The error is running out of memory.
pub fn expected_of(
    alloc: Global,
    owner: Owner,
    commands: &[&Command],
) -> Result<Expected, AllocError>
    requires { length (filter creates_pod (commands_lent commands.now)) < 2 ^ 32 }
    ensures { IfOk result (λ e. expected_seen e ≡ expected_of (commands_lent commands.now) (owner_of owner)) }
{
    Ok(Expected {
        owner,
        creations: creations(commands) as u32,
        deletions: deletions(alloc, commands)?,
    })
}

/// Returns a copy of a ReplicaSet's key and uid. The error is running out of memory.
fn copy_of_owner(owner: &Owner) -> Result<Owner, AllocError>
    ensures { IfOk result (λ o. owner_of o ≡ owner_of owner.now) }
{
    Ok(Owner {
        key: owner.key.try_copy()?,
        uid: owner.uid.clone()?,
    })
}

/// Adds that so many pods of a ReplicaSet are expected no longer to be created. The error is running out of memory.
fn add_creations(
    owner: &Owner,
    creations: usize,
    observations: &mut Vec<Observation>,
) -> Result<(), AllocError>
    ensures { OnOk result (map observation_of observations.new.items
        ≡ map observation_of observations.old.items ++ replicate creations (creation_observed (owner_of owner.now))) }
{
    for _ in 0..creations {
        let owner = copy_of_owner(owner)?;
        observations.push(Observation::CreationObserved { owner })?;
    }
    Ok(())
}

/// Adds that pods of a ReplicaSet are expected no longer to be deleted. The error is running out of memory.
fn add_deletions(
    owner: &Owner,
    pods: Vec<String>,
    observations: &mut Vec<Observation>,
) -> Result<(), AllocError>
    ensures { OnOk result (map observation_of observations.new.items
        ≡ map observation_of observations.old.items ++ map (deletion_observed (owner_of owner.now)) (map string_bytes pods.items)) }
{
    for pod in pods {
        let owner = copy_of_owner(owner)?;
        observations.push(Observation::DeletionObserved { owner, pod })?;
    }
    Ok(())
}

/// Returns what is expected of a ReplicaSet's pods no longer, where these commands are not carried out. The error is running
/// out of memory.
pub fn taken_back_of(
    alloc: Global,
    owner: &Owner,
    commands: &[&Command],
) -> Result<Vec<Observation>, AllocError>
    ensures { IfOk result (λ v. map observation_of v.items
        ≡ as_observed (expected_of (commands_lent commands.now) (owner_of owner.now))) }
{
    let mut observations = Vec::new(alloc);
    add_creations(owner, creations(commands), &mut observations)?;
    add_deletions(owner, deletions(alloc, commands)?, &mut observations)?;
    Ok(observations)
}

//! The plan of a turn.
ghost use Rattle.std.specs.Prelude.{◌≡◌, ◌&&◌, [], IfOk, is_some, map};
ghost use Rattle.spec_sim.specs.NextSteps.{unseen};
ghost use Rattle.spec_sim.specs.Turns.{hand, asks_by, owner, plan_by};
ghost use Rattle.reconcile_types.specs.Commands.{commands_of};
ghost use Rattle.reconcile_types.specs.Hands.{hand_of, reads_of, read_of};
ghost use Rattle.object_keys.specs.Keys.{key_of};
ghost use Rattle.object_keys.specs.WorkKeys.{work_key_of};
ghost use Rattle.reconcile_turn.specs.Pods.{makes_pods};
ghost use Rattle.reconcile_turn.specs.Seen.{sight_of};
ghost use Rattle.reconcile_turn.specs.Stages.{IsIn, phase_of, turn_of};

use crate::pods::makes_pods;
use crate::sets::has_owner;
use crate::sightings::next_sighting;
use crate::sights::{Sight, looks, was_satisfied};
use crate::stages::Stage;
use indexer::Indexed;
use object_keys::{Key, WorkKey};
use reconcile_types::{Hand, Plan, Read};
use spec_client_go::controller::Controller;
use std::alloc::{AllocError, Global};
use std::sync::Arc;

/// Returns a copy of a live read. The error is running out of memory.
fn copy_of_read(read: &Read) -> Result<Read, AllocError>
    ensures { IfOk result (λ r. read_of r ≡ read_of read.now) }
{
    let found = match &read.found {
        Some(object) => Some(object.try_copy()?),
        None => None,
    };
    Ok(Read {
        key: read.key.try_copy()?,
        found,
    })
}

/// Returns copies of live reads. The error is running out of memory.
pub fn copies_of_reads(alloc: Global, reads: &[Read]) -> Result<Vec<Read>, AllocError>
    ensures { IfOk result (λ v. reads_of v.items ≡ reads_of reads.now) }
{
    let mut made = Vec::with_capacity(alloc, reads.len())?;
    for read in reads {
        made.push(copy_of_read(read)?)?;
    }
    Ok(made)
}

/// Returns what a plan is made of, of a turn's key, sights and live reads. The error is running out of memory.
fn hand(
    alloc: Global,
    key: &WorkKey,
    sights: &[Sight],
    reads: &[Read],
) -> Result<Hand<Indexed>, AllocError>
    ensures { IfOk result (λ h. hand_of (λ i. i) h
        ≡ hand (turn_of (work_key_of key.now) (map sight_of sights.now) (reads_of reads.now))) }
{
    Ok(Hand {
        key: key.key.try_copy()?,
        looks: looks(sights)?,
        is_satisfied: was_satisfied(sights),
        reads: copies_of_reads(alloc, reads)?,
    })
}

/// Returns what a controller reads live still. The error is running out of memory.
fn asks(alloc: Global, controller: Controller, hand: &Hand<Indexed>) -> Result<Vec<Key>, AllocError>
    ensures { IfOk result (λ v. map key_of v.items ≡ asks_by controller (hand_of (λ i. i) hand.now)) }
{
    match controller {
        Controller::ReplicaSet => replicaset::asks(alloc, hand),
        Controller::Deployment => deployment::asks(alloc, hand),
        Controller::Collector => collector::asks(alloc, hand),
    }
}

/// Returns what a controller plans. The error is running out of memory.
fn plan(alloc: Global, controller: Controller, hand: &Hand<Indexed>) -> Result<Plan, AllocError>
    ensures { IfOk result (λ p. commands_of p ≡ plan_by controller (hand_of (λ i. i) hand.now)) }
{
    match controller {
        Controller::ReplicaSet => replicaset::plan(alloc, hand),
        Controller::Deployment => deployment::plan(alloc, hand),
        Controller::Collector => collector::plan(alloc, hand),
    }
}

/// Returns whether pods are expected of a turn's plan. It takes no memory.
fn expects_pods(key: &WorkKey, sights: &[Sight], plan: &Plan) -> bool
    ensures { result ≡ (is_some (owner (turn_of (work_key_of key.now) (map sight_of sights.now) [])) && makes_pods (commands_of plan.now)) }
{
    has_owner(key, sights) && makes_pods(plan.commands.as_slice())
}

/// Returns where a turn is that has seen all, of what its plan is made of; the plan is made where nothing is to be read live any more. The error is
/// running out of memory.
fn stage_by(
    alloc: Global,
    key: &WorkKey,
    sights: &[Sight],
    known: &Hand<Indexed>,
) -> Result<Stage, AllocError>
    requires seen { unseen (turn_of (work_key_of key.now) (map sight_of sights.now) (reads_of known.now.reads.items)) ≡ [] }
    requires same { hand_of (λ i. i) known.now ≡ hand (turn_of (work_key_of key.now) (map sight_of sights.now) (reads_of known.now.reads.items)) }
    ensures { IfOk result (λ s. IsIn (phase_of s) (turn_of (work_key_of key.now) (map sight_of sights.now) (reads_of known.now.reads.items))) }
{
    let asked = asks(alloc, key.controller, known)?;
    if let Some(first) = asked.first() {
        return Ok(Stage::Reading(first.try_copy()?));
    }
    let plan = plan(alloc, key.controller, known)?;
    let expects_pods = expects_pods(key, sights, &plan);
    Ok(Stage::Planned(Arc::new(alloc, plan)?, expects_pods))
}

/// Returns where a turn is, of its key, its sights and its live reads; the plan is made where all is in. The error is running
/// out of memory.
pub fn stage_of(
    alloc: Global,
    key: &WorkKey,
    sights: &[Sight],
    reads: &[Read],
) -> Result<Stage, AllocError>
    ensures { IfOk result (λ s. IsIn (phase_of s)
        (turn_of (work_key_of key.now) (map sight_of sights.now) (reads_of reads.now))) }
{
    if next_sighting(key.controller, sights.len()).is_some() {
        return Ok(Stage::Seeing);
    }
    let hand = hand(alloc, key, sights, reads)?;
    stage_by(alloc, key, sights, &hand)
}

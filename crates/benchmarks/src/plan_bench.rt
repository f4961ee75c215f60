//! Measures plans: `benchmarks plan WAY COUNT PLANS` makes a ReplicaSet with so many pods, or a Deployment with so many sets, and
//! plans so often of what is then there. The ways are `status`, where only the status of the set is to be updated, `half`, where
//! half of the pods are too many, for the collector `foreground` and `orphan`, where the set is being deleted and waits for its
//! pods, or leaves them, and for the Deployment `rollout`, where its new set grows, and `history`, where sets that nobody needs
//! are deleted.

use crate::failures::Failure;
use crate::plan_deployments::fill_with_sets;
use crate::plan_hands::{empty_hand, fill_with_pods, key};
use indexer::Indexed;
use reconcile_types::{Hand, Plan};
use spec_api::kinds::Kind;
use std::alloc::{AllocError, Global};

/// What is planned.
#[derive(Clone, Copy)]
pub enum Way {
    Status,
    Half,
    Foreground,
    Orphan,
    Rollout,
    History,
}

/// What is to be done.
#[derive(Clone, Copy)]
struct Task {
    way: Way,
    count: u32,
    plans: u32,
}

/// Returns the way of this name.
fn way_named(name: &str) -> Option<Way> {
    match name {
        "status" => Some(Way::Status),
        "half" => Some(Way::Half),
        "foreground" => Some(Way::Foreground),
        "orphan" => Some(Way::Orphan),
        "rollout" => Some(Way::Rollout),
        "history" => Some(Way::History),
        _ => None,
    }
}

/// Returns what the arguments ask for.
fn asked(words: &[String]) -> Option<Task> {
    let [way, count, plans] = words else {
        return None;
    };
    Some(Task {
        way: way_named(way.as_str())?,
        count: count.parse::<u32>().ok()?,
        plans: plans.parse::<u32>().ok()?,
    })
}

/// Returns the kind of the object that is planned of.
fn kind_of(way: Way) -> Kind {
    match way {
        Way::Status | Way::Half | Way::Foreground | Way::Orphan => Kind::ReplicaSet,
        Way::Rollout | Way::History => Kind::Deployment,
    }
}

/// Has a hand look at what is planned of.
fn fill(alloc: Global, task: Task, hand: &mut Hand<Indexed>) -> Result<(), AllocError> {
    match kind_of(task.way) {
        Kind::Deployment => fill_with_sets(alloc, hand, task.way, task.count),
        _ => fill_with_pods(alloc, hand, task.way, task.count),
    }
}

/// Returns the plan of a hand.
fn plan(alloc: Global, way: Way, hand: &Hand<Indexed>) -> Result<Plan, AllocError> {
    match way {
        Way::Status | Way::Half => replicaset::plan(alloc, hand),
        Way::Foreground | Way::Orphan => collector::plan(alloc, hand),
        Way::Rollout | Way::History => deployment::plan(alloc, hand),
    }
}

/// Returns how many commands the plan of a hand has.
fn commands_of(alloc: Global, way: Way, hand: &Hand<Indexed>) -> Result<usize, AllocError> {
    Ok(plan(alloc, way, hand)?.commands.len())
}

/// Fills a hand and plans so often, and returns how many commands there were in all.
fn plan_often(alloc: Global, task: Task, hand: &mut Hand<Indexed>) -> Result<u64, AllocError> {
    fill(alloc, task, hand)?;
    let mut commands = 0u64;
    for _ in 0..task.plans {
        commands = commands.wrapping_add(commands_of(alloc, task.way, hand)? as u64);
    }
    Ok(commands)
}

/// Plans so often of a new hand, and returns how many commands there were in all.
fn commands(alloc: Global, task: Task) -> Result<u64, AllocError> {
    let mut hand = empty_hand(alloc, key(alloc, kind_of(task.way))?);
    plan_often(alloc, task, &mut hand)
}

/// Measures what the words ask for, and returns what came of it, as a text.
pub fn run(alloc: Global, words: &[String]) -> Result<String, Failure> {
    let Some(task) = asked(words) else {
        return Err(Failure::Arguments);
    };
    let count = commands(alloc, task)?;
    Ok(format!(in alloc; "{} plans, {count} commands", task.plans)?)
}

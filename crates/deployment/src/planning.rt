//! The plan of a Deployment.
ghost use Rattle.std.specs.Prelude.{◌≡◌, IfOk, codes, is_some, map};
ghost use Rattle.spec_api.specs.Checks.{in_spec};
ghost use Rattle.spec_api.specs.Defaults.{is_rolling_update};
ghost use Rattle.spec_api.specs.History.{found};
ghost use Rattle.spec_api.specs.SelectorValues.{is_some_and};
ghost use Rattle.object_keys.specs.Keys.{key_of};
ghost use Rattle.spec_reconcile.specs.Deployments.{asks, count_collision, go_on, is_going_on, is_name_taken, plan, plan_for, plan_of, summary};
ghost use Rattle.object_fields.specs.Lent.{data_of};
ghost use Rattle.deployment.specs.Sets.{rollout_seen};
ghost use Rattle.reconcile_types.specs.Commands.{command_of, commands_of};
ghost use Rattle.reconcile_types.specs.Hands.{hand_of, looks_by, members_of};

use crate::making::new_name;
use crate::managed::sets_of;
use crate::recreating::recreate;
use crate::rolling::roll;
use crate::rollout::{Rollout, rollout_of};
use crate::statuses::{add_report, summary};
use json_values::values::whole_number;
use meta::{Kind, Object};
use object_fields::in_spec;
use object_keys::{Key, PerKind};
use reconcile_types::{Command, Hand, Plan, Seen, add_update, count_in_status, status};
use spec_reconcile::Summary;
use std::alloc::{AllocError, Global};

/// The greatest count of collisions.
const MOST_COLLISIONS: u64 = 2147483647;

/// Returns whether a Deployment is neither being deleted nor paused.
fn is_going_on(deployment: &Object) -> bool
    ensures { result ≡ is_going_on deployment.now.value }
{
    let is_paused = match in_spec(deployment, "paused") {
        Some(found) => found.as_bool().unwrap_or(false),
        None => false,
    };
    !deployment.is_being_deleted() && !is_paused
}

/// Returns whether the strategy of a Deployment is a rolling update.
fn is_rolling_update(deployment: &Object) -> bool
    ensures { result ≡ is_some_and is_rolling_update (in_spec (codes "strategy") deployment.now.value) }
{
    match in_spec(deployment, "strategy") {
        Some(strategy) => match strategy.get("type") {
            Some(found) => match found.as_str() {
                Some(name) => name == "RollingUpdate",
                None => false,
            },
            None => false,
        },
        None => false,
    }
}

/// Returns whether there is a ReplicaSet of this name.
fn is_there<S: Seen>(look: &Option<S>, key: &Key) -> bool
    ensures { result ≡ is_some (found (key_of key.now) (members_of S.snapshot look.now)) }
{
    match look {
        Some(look) => look.get(key).is_some(),
        None => false,
    }
}

/// Returns whether the new set is to be made, and another has its name.
fn is_name_taken<S: Seen>(
    alloc: Global,
    rollout: &Rollout<'_>,
    look: &Option<S>,
) -> Result<bool, AllocError>
    ensures { IfOk result (λ b. b ≡ is_name_taken (rollout_seen rollout.now) (members_of S.snapshot look.now)) }
{
    if rollout.new.is_some() {
        return Ok(false);
    }
    let key = Key {
        kind: Kind::ReplicaSet,
        namespace: rollout.key.namespace.clone()?,
        name: new_name(alloc, rollout)?,
    };
    Ok(is_there(look, &key))
}

/// Returns the command that counts a collision, up to the greatest count.
fn count_collision(
    alloc: Global,
    rollout: &Rollout<'_>,
    collisions: u64,
) -> Result<Vec<Command>, AllocError>
    ensures { IfOk result (λ v. map command_of v.items ≡ count_collision (rollout_seen rollout.now) collisions) }
{
    let mut commands = Vec::new(alloc);
    if collisions >= MOST_COLLISIONS {
        return Ok(commands);
    }
    let now = status(alloc, rollout.deployment)?;
    let count = whole_number(alloc, collisions + 1)?;
    let new = now.set_member(alloc, "collisionCount", count)?;
    add_update(alloc, rollout.key, rollout.deployment, new, &mut commands)?;
    Ok(commands)
}

/// Returns the commands of a step of the rollout.
fn go_on<S: Seen>(
    alloc: Global,
    rollout: &Rollout<'_>,
    pods: &Option<S>,
    counts: &Summary,
) -> Result<Vec<Command>, AllocError>
    requires { counts.now ≡ summary (rollout_seen rollout.now) }
    ensures { IfOk result (λ v. map command_of v.items ≡ go_on (rollout_seen rollout.now) (members_of S.snapshot pods.now)) }
{
    if is_rolling_update(rollout.deployment) {
        roll(alloc, rollout, counts)
    } else {
        recreate(alloc, rollout, pods, counts)
    }
}

/// Returns the commands for a Deployment with its sets.
fn commands_for<S: Seen>(
    alloc: Global,
    rollout: &Rollout<'_>,
    looks: &PerKind<Option<S>>,
) -> Result<Vec<Command>, AllocError>
    ensures { IfOk result (λ v. map command_of v.items
        ≡ plan_for (rollout_seen rollout.now) (looks_by (members_of S.snapshot) looks.now)) }
{
    let counts = summary(alloc, rollout)?;
    let mut commands = Vec::new(alloc);
    if is_going_on(rollout.deployment) {
        if is_name_taken(alloc, rollout, &looks.replica_sets)? {
            let collisions = count_in_status(rollout.deployment, "collisionCount");
            return count_collision(alloc, rollout, collisions);
        }
        commands = go_on(alloc, rollout, &looks.pods, &counts)?;
    }
    add_report(alloc, rollout, counts, &mut commands)?;
    Ok(commands)
}

/// Returns the Deployment of the turn, where it is there.
fn deployment_looked_at<S: Seen>(hand: &Hand<S>) -> Option<&Object>
    ensures { data_of result ≡ found (key_of hand.now.key) (members_of S.snapshot hand.now.looks.deployments) }
{
    match &hand.looks.deployments {
        Some(look) => look.get(&hand.key),
        None => None,
    }
}

/// Returns the commands for the turn's Deployment: its sets are made, scaled and deleted, and its status is updated. Where
/// it is not there, there is none. The error is running out of memory.
pub fn plan<S: Seen>(alloc: Global, hand: &Hand<S>) -> Result<Plan, AllocError>
    ensures { IfOk result (λ p. commands_of p ≡ plan (hand_of S.snapshot hand.now)) }
{
    let Some(deployment) = deployment_looked_at(hand) else {
        return Ok(Plan {
            commands: Vec::new(alloc),
        });
    };
    let sets = sets_of(alloc, &hand.looks.replica_sets, &hand.key, deployment)?;
    let rollout = rollout_of(alloc, &hand.key, deployment, sets.as_slice())?;
    let commands = commands_for(alloc, &rollout, &hand.looks)?;
    Ok(Plan { commands })
}

/// Returns the keys that are to be read live before a Deployment is planned for: none. The error is running out of memory.
pub fn asks<S: Seen>(alloc: Global, hand: &Hand<S>) -> Result<Vec<Key>, AllocError>
    ensures { IfOk result (λ v. map key_of v.items ≡ asks (hand_of S.snapshot hand.now)) }
{
    let _key = &hand.key;
    Ok(Vec::new(alloc))
}

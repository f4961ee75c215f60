//! The plan of a ReplicaSet.
ghost use Rattle.std.specs.Prelude.{◌≡◌, ◌++◌, IfOk, OnOk, map};
ghost use Rattle.object_keys.specs.Keys.{key_of};
ghost use Rattle.spec_reconcile.specs.PodClaims.{claims, own_pods};
ghost use Rattle.spec_reconcile.specs.ReplicaSets.{plan, plan_of, plan_with, report, scale_if};
ghost use Rattle.object_fields.specs.Lent.{data_of};
ghost use Rattle.replicaset.specs.Ranks.{AreRead, pods_of};
ghost use Rattle.reconcile_types.specs.Commands.{command_of, commands_of};
ghost use Rattle.reconcile_types.specs.Entries.{entry_of};
ghost use Rattle.reconcile_types.specs.Hands.{hand_of};

use crate::claim_commands::claim_pods;
use crate::claims::{may_adopt, selector_of};
use crate::looked_at::{pods_looked_at, set_looked_at};
use crate::ranks::Ranked;
use crate::scaling::add_scale;
use crate::statuses::add_report;
use meta::Object;
use object_keys::Key;
use reconcile_types::hands::live;
use reconcile_types::{Command, Entry, Hand, Plan, Seen};
use std::alloc::{AllocError, Global};

/// Adds the commands that create pods or delete them, where all that was expected has been seen and the set is not being
/// deleted. The error is running out of memory.
fn add_scale_if(
    alloc: Global,
    is_satisfied: bool,
    key: &Key,
    set: &Object,
    pods: &[Ranked<'_>],
    commands: &mut Vec<Command>,
) -> Result<(), AllocError>
    requires { AreRead pods.now }
    ensures { OnOk result (map command_of commands.new.items
        ≡ map command_of commands.old.items ++ scale_if is_satisfied (key_of key.now) set.now.value (pods_of pods.now)) }
{
    if is_satisfied && !set.is_being_deleted() {
        add_scale(alloc, key, set, pods, commands)
    } else {
        Ok(())
    }
}

/// Returns the commands for a set, of these pods of its namespace. The error is running out of memory.
fn commands_with(
    alloc: Global,
    is_satisfied: bool,
    key: &Key,
    set: &Object,
    may: bool,
    pods: &[Entry<'_>],
) -> Result<Vec<Command>, AllocError>
    ensures { IfOk result (λ v. map command_of v.items
        ≡ plan_with is_satisfied (key_of key.now) set.now.value may (map entry_of pods.now)) }
{
    let selector = selector_of(alloc, set)?;
    let mut commands = Vec::new(alloc);
    let own = claim_pods(alloc, key, set, &selector, may, pods, &mut commands)?;
    add_scale_if(alloc, is_satisfied, key, set, own.as_slice(), &mut commands)?;
    add_report(alloc, key, set, own.as_slice(), &mut commands)?;
    Ok(commands)
}

/// Returns the commands for the turn's ReplicaSet: pods are released and adopted, then created or deleted, and its status is
/// updated. Where it is not there, there is none. The error is running out of memory.
pub fn plan<S: Seen>(alloc: Global, hand: &Hand<S>) -> Result<Plan, AllocError>
    ensures { IfOk result (λ p. commands_of p ≡ plan (hand_of S.snapshot hand.now)) }
{
    let Some(set) = set_looked_at(hand) else {
        return Ok(Plan {
            commands: Vec::new(alloc),
        });
    };
    let pods = pods_looked_at(alloc, hand)?;
    let may = may_adopt(set, live(hand.reads.as_slice(), &hand.key));
    let commands = commands_with(
        alloc,
        hand.is_satisfied,
        &hand.key,
        set,
        may,
        pods.as_slice(),
    )?;
    Ok(Plan { commands })
}

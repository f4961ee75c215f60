//! The command by which a ReplicaSet's status is updated.
ghost use Rattle.std.specs.Prelude.{◌≡◌, ◌++◌, IfOk, OnOk, map, length};
ghost use Rattle.serde_json.specs.Data.{object, put};
ghost use Rattle.spec_api.specs.Defaults.{unsigned_value};
ghost use Rattle.spec_api.specs.Replacements.{generation, says_the_same};
ghost use Rattle.spec_api.specs.Values.{members_of};
ghost use Rattle.object_keys.specs.Keys.{key_of};
ghost use Rattle.spec_reconcile.specs.ReplicaSets.{new_status, report, status, with_counts, with_status};
ghost use Rattle.replicaset.specs.Ranks.{AreRead, pods_of};
ghost use Rattle.reconcile_types.specs.Commands.{command_of};

use crate::own_pods::count_ready;
use crate::ranks::Ranked;
use meta::Object;
use object_keys::Key;
use reconcile_types::{Command, status, with_count};
use std::alloc::{AllocError, Global};

/// Returns the set's status with these counts. The error is running out of memory.
fn with_counts(alloc: Global, set: &Object, count: u64, ready: u64) -> Result<Object, AllocError>
    ensures { IfOk result (λ o. o.value
        ≡ object (with_counts count ready (generation set.now.value) (status set.now.value))) }
{
    let status = status(alloc, set)?;
    let status = with_count(alloc, status, "observedGeneration", set.generation())?;
    let status = with_count(alloc, status, "availableReplicas", ready)?;
    let status = with_count(alloc, status, "readyReplicas", ready)?;
    let status = with_count(alloc, status, "replicas", count)?;
    Ok(status)
}

/// Returns the status that the set has with these pods. The error is running out of memory.
fn new_status(alloc: Global, set: &Object, pods: &[Ranked<'_>]) -> Result<Object, AllocError>
    requires { AreRead pods.now }
    ensures { IfOk result (λ o. o.value ≡ object (new_status set.now.value (pods_of pods.now))) }
{
    with_counts(alloc, set, pods.len() as u64, count_ready(pods) as u64)
}

/// Adds the command that updates the set's status, where it changes. The error is running out of memory.
pub(crate) fn add_report(
    alloc: Global,
    key: &Key,
    set: &Object,
    pods: &[Ranked<'_>],
    commands: &mut Vec<Command>,
) -> Result<(), AllocError>
    requires { AreRead pods.now }
    ensures { OnOk result (map command_of commands.new.items
        ≡ map command_of commands.old.items ++ report (key_of key.now) set.now.value (pods_of pods.now)) }
{
    let new = new_status(alloc, set, pods)?;
    reconcile_types::add_report(alloc, key, set, new, commands)
}

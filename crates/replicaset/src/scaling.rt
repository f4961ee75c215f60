//! The commands that create the pods that a ReplicaSet lacks, and delete those that are too many.
ghost use Rattle.std.specs.Prelude.{◌≡◌, ◌++◌, OnOk, map, replicate};
ghost use Rattle.spec_api.specs.declared.kinds.Kind.TheVariants.{Pod};
ghost use Rattle.spec_client_go.specs.Commands.{create};
ghost use Rattle.object_keys.specs.Keys.{key_of};
ghost use Rattle.spec_reconcile.specs.NewPods.{new_pod};
ghost use Rattle.spec_reconcile.specs.ReplicaSets.{scale};
ghost use Rattle.replicaset.specs.Ranks.{AreRead, pods_of};
ghost use Rattle.reconcile_types.specs.Commands.{command_of};

use crate::new_pods::new_pod;
use crate::ranks::Ranked;
use crate::victims::delete_lowest;
use meta::Object;
use object_keys::Key;
use reconcile_types::{Command, count_in_spec};
use std::alloc::{AllocError, Global};

/// At most so many pods are created or deleted in one turn.
const MOST: u64 = 500;

/// Adds so many commands that create a pod in the key's namespace. The error is running out of memory.
fn repeat(
    key: &Key,
    pod: &Object,
    missing: usize,
    commands: &mut Vec<Command>,
) -> Result<(), AllocError>
    ensures { OnOk result (map command_of commands.new.items
        ≡ map command_of commands.old.items ++ replicate missing (create pod.now.kind (key_of key.now).namespace pod.now.value)) }
{
    for _ in 0..missing {
        let namespace = key.namespace.clone()?;
        let object = pod.try_copy()?;
        commands.push(Command::Create { namespace, object })?;
    }
    Ok(())
}

/// Adds the commands that create so many pods. The error is running out of memory.
fn add_creates(
    alloc: Global,
    key: &Key,
    set: &Object,
    missing: usize,
    commands: &mut Vec<Command>,
) -> Result<(), AllocError>
    ensures { OnOk result (map command_of commands.new.items
        ≡ map command_of commands.old.items ++ replicate missing (create Pod (key_of key.now).namespace (new_pod (key_of key.now) set.now.value))) }
{
    let pod = new_pod(alloc, key, set)?;
    repeat(key, &pod, missing, commands)
}

/// Adds the commands that create the pods that the set lacks, or delete those that are too many. The error is running out of
/// memory.
pub(crate) fn add_scale(
    alloc: Global,
    key: &Key,
    set: &Object,
    pods: &[Ranked<'_>],
    commands: &mut Vec<Command>,
) -> Result<(), AllocError>
    requires { AreRead pods.now }
    ensures { OnOk result (map command_of commands.new.items
        ≡ map command_of commands.old.items ++ scale (key_of key.now) set.now.value (pods_of pods.now)) }
{
    let wanted = count_in_spec(set, "replicas");
    let count = pods.len() as u64;
    if count < wanted {
        let missing = (wanted - count).min(MOST);
        add_creates(alloc, key, set, missing as usize, commands)
    } else {
        let surplus = (count - wanted).min(MOST);
        delete_lowest(alloc, pods, surplus as usize, commands)
    }
}

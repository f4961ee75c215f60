//! The pods that a ReplicaSet deletes where it has too many.
ghost use Rattle.std.specs.Prelude.{◌≡◌, ◌++◌, IfOk, OnOk, map, take};
ghost use Rattle.spec_reconcile.specs.PodRanks.{ranked};
ghost use Rattle.spec_reconcile.specs.ReplicaSets.{delete_pod};
ghost use Rattle.replicaset.specs.Nodes.{count_at};
ghost use Rattle.replicaset.specs.Ranks.{AreRead, pods_of, rank_of, ranked_of, with_on_node};
ghost use Rattle.replicaset.specs.declared.ranks.Ranked.{Ranked};
ghost use Rattle.reconcile_types.specs.Commands.{command_of};
ghost use Rattle.reconcile_types.specs.Entries.{entry_of};

use crate::nodes::{count_at, count_by_node};
use crate::ranks::{Ranked, beside, sort};
use reconcile_types::{Command, Entry};
use std::alloc::{AllocError, Global};
use std::collections::BTreeMap;

/// Returns the pods with what was counted on their nodes, in the order of the pods. The error is running out of memory.
fn with_counts<'a>(
    alloc: Global,
    counts: &BTreeMap<&'a str, usize>,
    pods: &[Ranked<'a>],
) -> Result<Vec<Ranked<'a>>, AllocError>
    ensures { IfOk result (λ v. map ranked_of v.items
        ≡ map (λ (r : Ranked). (with_on_node (count_at r.node.now counts.now) (rank_of r.rank), entry_of r.pod)) pods.now) }
{
    let mut ranked = Vec::with_capacity(alloc, pods.len())?;
    for pod in pods {
        ranked.push(beside(pod, count_at(counts, pod.node)))?;
    }
    Ok(ranked)
}

/// Returns the pods in the order in which they go. The error is running out of memory.
fn ranked<'a>(alloc: Global, pods: &[Ranked<'a>]) -> Result<Vec<Ranked<'a>>, AllocError>
    requires { AreRead pods.now }
    ensures { IfOk result (λ v. pods_of v.items ≡ ranked (pods_of pods.now)) }
{
    let counts = count_by_node(alloc, pods)?;
    let mut ranked = with_counts(alloc, &counts, pods)?;
    sort(&mut ranked)?;
    Ok(ranked)
}

/// Returns the command that deletes a pod, by its uid. The error is running out of memory.
fn delete_pod(alloc: Global, pod: &Entry<'_>) -> Result<Command, AllocError>
    ensures { IfOk result (λ c. command_of c ≡ delete_pod (entry_of pod.now)) }
{
    let uid = match pod.object.uid() {
        Some(uid) => Some(String::from_str(alloc, uid)?),
        None => None,
    };
    Ok(Command::Delete {
        key: pod.key.try_copy()?,
        uid,
        version: None,
        policy: None,
    })
}

/// Adds the commands that delete pods, in their order. The error is running out of memory.
fn add_deletes(
    alloc: Global,
    victims: &[Ranked<'_>],
    commands: &mut Vec<Command>,
) -> Result<(), AllocError>
    ensures { OnOk result (map command_of commands.new.items
        ≡ map command_of commands.old.items ++ map delete_pod (pods_of victims.now)) }
{
    for victim in victims {
        commands.push(delete_pod(alloc, &victim.pod)?)?;
    }
    Ok(())
}

/// Adds the commands that delete so many of the pods, those of the lowest rank. The error is running out of memory.
pub(crate) fn delete_lowest(
    alloc: Global,
    pods: &[Ranked<'_>],
    surplus: usize,
    commands: &mut Vec<Command>,
) -> Result<(), AllocError>
    requires { AreRead pods.now }
    ensures { OnOk result (map command_of commands.new.items
        ≡ map command_of commands.old.items ++ map delete_pod (take surplus (ranked (pods_of pods.now)))) }
{
    if surplus == 0 {
        return Ok(());
    }
    let mut victims = ranked(alloc, pods)?;
    victims.truncate(surplus);
    add_deletes(alloc, victims.as_slice(), commands)
}

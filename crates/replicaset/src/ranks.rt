//! The ranks of a ReplicaSet's pods: which are deleted first.
ghost use Rattle.std.specs.Prelude.{◌≡◌, OnOk, map};
ghost use Rattle.std.specs.Ordering.{on};
ghost use Rattle.spec_reconcile.specs.Orders.{in_order};
ghost use Rattle.spec_reconcile.specs.PodRanks.{phase_rank, rank_cmp};
ghost use Rattle.spec_reconcile.specs.Pods.{phase};
ghost use Rattle.replicaset.specs.Ranks.{phase_of, rank_of, ranked_of, read, read_of, with_on_node};
ghost use Rattle.reconcile_types.specs.Entries.{entry_of};

use crate::costs::deletion_cost;
use crate::pods::{creation, is_ready, node, phase};
use meta::Object;
use object_keys::Key;
use reconcile_types::Entry;
use std::alloc::AllocError;
use std::cmp::Reverse;

/// A pod's phase, as far as ranks go by it.
#[derive(Clone, Copy, PartialEq, Eq, PartialOrd, Ord)]
pub(crate) enum Phase {
    /// Pending, or any other than the two below.
    Pending,
    Unknown,
    Running,
}

/// How soon a pod is deleted: those of the lowest rank go first.
#[derive(Clone, Copy, PartialEq, Eq, PartialOrd, Ord)]
pub(crate) struct Rank<'a> {
    pub is_placed: bool,
    pub phase: Phase,
    pub is_ready: bool,
    pub cost: i32,
    pub on_node: Reverse<usize>,
    pub creation: Reverse<&'a str>,
    pub key: &'a Key,
}

/// A pod of the set's own with what is read of it: its rank, which counts no pods on its node at first, and that node.
#[derive(Clone, Copy)]
pub(crate) struct Ranked<'a> {
    pub rank: Rank<'a>,
    pub node: &'a str,
    pub pod: Entry<'a>,
}

/// Returns the pod's phase, as far as ranks go by it.
fn phase_rank(pod: &Object) -> Phase
    ensures { phase_of result ≡ phase_rank (phase pod.now.value) }
{
    let phase = phase(pod);
    if phase == "Running" {
        Phase::Running
    } else if phase == "Unknown" {
        Phase::Unknown
    } else {
        Phase::Pending
    }
}

/// Returns a pod with what is read of it. It takes no memory.
pub(crate) fn read<'a>(pod: &Entry<'a>) -> Ranked<'a>
    ensures read { read_of result ≡ read (entry_of result.pod) }
    ensures pod { entry_of result.pod ≡ entry_of pod.now }
{
    let node = node(pod.object);
    let rank = Rank {
        is_placed: !node.is_empty(),
        phase: phase_rank(pod.object),
        is_ready: is_ready(pod.object),
        cost: deletion_cost(pod.object),
        on_node: Reverse(0),
        creation: Reverse(creation(pod.object)),
        key: pod.key,
    };
    Ranked {
        rank,
        node,
        pod: *pod,
    }
}

/// Returns the pod with so many of the pods on its node. It takes no memory.
pub(crate) fn beside<'a>(pod: &Ranked<'a>, on_node: usize) -> Ranked<'a>
    ensures { ranked_of result ≡ (with_on_node on_node (rank_of pod.now.rank), entry_of pod.now.pod) }
{
    let rank = Rank {
        on_node: Reverse(on_node),
        ..pod.rank
    };
    Ranked { rank, ..*pod }
}

/// Puts pods in the order of their ranks. The error is running out of memory.
pub(crate) fn sort(pods: &mut Vec<Ranked<'_>>) -> Result<(), AllocError>
    ensures { OnOk result (map ranked_of pods.new.items
        ≡ in_order (on (λ r. r.0) rank_cmp) (map ranked_of pods.old.items)) }
{
    pods.sort_by_key(|pod| pod.rank)
}

//! How many pods are on each node.
ghost use Rattle.std.specs.Prelude.{◌≡◌, ◌+◌, ◌<◌, ◌^◌, ◌-◌, ℕ, List, IfOk, OnOk, if◌then◌else◌};
ghost use Rattle.std.specs.Str.{bytes_eq};
ghost use Rattle.replicaset.specs.Nodes.{count_at};
ghost use Rattle.replicaset.specs.Ranks.{on_node_among};

use crate::ranks::Ranked;
use std::alloc::{AllocError, Global};
use std::collections::BTreeMap;

/// Returns how many pods are counted on a node. It takes no memory.
pub(crate) fn count_at(counts: &BTreeMap<&str, usize>, node: &str) -> usize
    ensures { result ≡ count_at node.now counts.now }
{
    counts.get(node).copied().unwrap_or(0)
}

/// Counts one more pod on a node. The error is running out of memory.
fn count_one<'a>(counts: &mut BTreeMap<&'a str, usize>, node: &'a str) -> Result<(), AllocError>
    requires { count_at node.now counts.old + 1 < 2 ^ 64 }
    ensures { OnOk result ((n : List ℕ) → count_at n counts.new
        ≡ (if bytes_eq node.now n then count_at n counts.old + 1 else count_at n counts.old)) }
{
    let before = count_at(counts, node);
    counts.insert(node, before + 1)?;
    Ok(())
}

/// Returns how many of the pods are on each node. The error is running out of memory.
pub(crate) fn count_by_node<'a>(
    alloc: Global,
    pods: &[Ranked<'a>],
) -> Result<BTreeMap<&'a str, usize>, AllocError>
    ensures { IfOk result (λ m. (n : List ℕ) → count_at n m ≡ on_node_among n pods.now) }
{
    let mut counts = BTreeMap::new(alloc);
    for pod in pods {
        count_one(&mut counts, pod.node)?;
    }
    Ok(counts)
}

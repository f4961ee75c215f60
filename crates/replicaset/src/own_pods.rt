//! How many of a ReplicaSet's own pods are ready.
ghost use Rattle.std.specs.Prelude.{◌≡◌};
ghost use Rattle.replicaset.specs.Ranks.{ready_among};

use crate::ranks::Ranked;

/// Returns how many of the pods are ready. It takes no memory.
pub(crate) fn count_ready(pods: &[Ranked<'_>]) -> usize
    ensures { result ≡ ready_among pods.now }
{
    let mut count = 0;
    for pod in pods {
        if pod.rank.is_ready {
            count += 1;
        }
    }
    count
}

//! What a worker looks at for a ReplicaSet.
ghost use Rattle.std.specs.Prelude.{◌≡◌, IfOk, map};
ghost use Rattle.spec_reconcile.specs.ReplicaSets.{set_looked_at, pods_looked_at};
ghost use Rattle.object_fields.specs.Lent.{data_of};
ghost use Rattle.reconcile_types.specs.Entries.{entry_of};
ghost use Rattle.reconcile_types.specs.Hands.{hand_of};

use meta::Object;
use reconcile_types::{Entry, Hand, Seen};
use std::alloc::{AllocError, Global};

/// Returns the ReplicaSet of the turn, where it is there.
pub(crate) fn set_looked_at<S: Seen>(hand: &Hand<S>) -> Option<&Object>
    ensures { data_of result ≡ set_looked_at (hand_of S.snapshot hand.now) }
{
    match &hand.looks.replica_sets {
        Some(look) => look.get(&hand.key),
        None => None,
    }
}

/// Returns the pods of its namespace. The error is running out of memory.
pub(crate) fn pods_looked_at<S: Seen>(
    alloc: Global,
    hand: &Hand<S>,
) -> Result<Vec<Entry<'_>>, AllocError>
    ensures { IfOk result (λ v. map entry_of v.items ≡ pods_looked_at (hand_of S.snapshot hand.now)) }
{
    match &hand.looks.pods {
        Some(look) => look.by_namespace(alloc, hand.key.namespace.as_str()),
        None => Ok(Vec::new(alloc)),
    }
}

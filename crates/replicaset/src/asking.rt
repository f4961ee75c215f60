//! What has to be read live before a ReplicaSet adopts pods.
ghost use Rattle.std.specs.Prelude.{◌≡◌, IfOk, map};
ghost use Rattle.spec_api.specs.Checks.{requirements};
ghost use Rattle.object_keys.specs.Keys.{key_of};
ghost use Rattle.spec_reconcile.specs.ReplicaSets.{asks, has_adoptable};
ghost use Rattle.reconcile_types.specs.Entries.{entry_of};
ghost use Rattle.reconcile_types.specs.Hands.{hand_of};

use crate::claims::{is_adoptable, selector_of};
use crate::looked_at::{pods_looked_at, set_looked_at};
use meta::Object;
use object_keys::Key;
use reconcile_types::hands::is_read;
use reconcile_types::{Entry, Hand, Seen};
use selector::Selector;
use std::alloc::{AllocError, Global};

/// Returns whether there is a pod that the set adopts, if it may.
fn has_adoptable(set: &Object, selector: &Option<Selector>, pods: &[Entry<'_>]) -> bool
    requires { selector.now ≡ requirements set.now.value }
    ensures { result ≡ has_adoptable set.now.value (map entry_of pods.now) }
{
    for pod in pods {
        if is_adoptable(set, selector, pod.object) {
            return true;
        }
    }
    false
}

/// Returns the keys that are still to be read live before the turn's ReplicaSet is planned for: its own, where there is a pod
/// to adopt. The error is running out of memory.
pub fn asks<S: Seen>(alloc: Global, hand: &Hand<S>) -> Result<Vec<Key>, AllocError>
    ensures { IfOk result (λ v. map key_of v.items ≡ asks (hand_of S.snapshot hand.now)) }
{
    let mut keys = Vec::new(alloc);
    let Some(set) = set_looked_at(hand) else {
        return Ok(keys);
    };
    if is_read(hand.reads.as_slice(), &hand.key) {
        return Ok(keys);
    }
    let selector = selector_of(alloc, set)?;
    let pods = pods_looked_at(alloc, hand)?;
    if has_adoptable(set, &selector, pods.as_slice()) {
        keys.push(hand.key.try_copy()?)?;
    }
    Ok(keys)
}

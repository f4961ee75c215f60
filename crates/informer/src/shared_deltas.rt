//! Deltas that both copies of the map share with those who wait for them.
ghost use Rattle.std.specs.Prelude.{◌≡◌, ◌+◌, ◌≤◌, ◌++◌, ◌∷◌, [], IfOk, IfErr, OnOk, OnErr, vec_len, vec_capacity};
ghost use Rattle.std.specs.Arc.{arc_value};
ghost use Rattle.reflector.specs.Deltas.{deltas_of};
ghost use Rattle.plain_informer.specs.Appended.{has_list};
ghost use Rattle.informer.specs.SharedDeltas.{all_in};

use plain_informer::is_list;
use reflector::Delta;
use std::alloc::{AllocError, AllocFailed, Global};
use std::sync::Arc;

/// A delta that copies of it share.
pub type SharedDelta = Arc<Delta, Global>;

/// Appends a delta to those that there is room for.
fn push_reserved(deltas: &mut Vec<SharedDelta>, delta: SharedDelta)
    requires { vec_len deltas.old + 1 ≤ vec_capacity deltas.old }
    ensures { all_in deltas.new.items ≡ all_in deltas.old.items ++ arc_value delta ∷ [] }
{
    if deltas.push(delta).is_err() {
        unreachable!()
    }
}

/// Appends a delta, which is then shared. At an error, which is running out of memory, it comes back, and nothing has changed.
pub fn push(alloc: Global, deltas: &mut Vec<SharedDelta>, delta: Delta) -> Result<(), Delta>
    ensures ok { OnOk result (all_in deltas.new.items ≡ all_in deltas.old.items ++ delta ∷ []) }
    ensures err { OnErr result (all_in deltas.new.items ≡ all_in deltas.old.items) }
    ensures returned { IfErr result (λ d. d ≡ delta) }
{
    if deltas.reserve(1).is_err() {
        return Err(delta);
    }
    match Arc::new(alloc, delta) {
        Ok(shared) => {
            push_reserved(deltas, shared);
            Ok(())
        }
        Err(failed) => Err(failed.value),
    }
}

/// Returns deltas, which are then shared. The error is running out of memory.
fn share(alloc: Global, deltas: Vec<Delta>) -> Result<Vec<SharedDelta>, AllocError>
    ensures { IfOk result (λ v. all_in v.items ≡ deltas.items) }
{
    let mut shared = Vec::with_capacity(alloc, deltas.len())?;
    for delta in deltas {
        shared.push(Arc::new(alloc, delta)?)?;
    }
    Ok(shared)
}

/// Appends more deltas, which are then shared. The error is running out of memory, and changes nothing.
pub fn append(
    alloc: Global,
    deltas: &mut Vec<SharedDelta>,
    more: Vec<Delta>,
) -> Result<(), AllocError>
    ensures ok { OnOk result (all_in deltas.new.items ≡ all_in deltas.old.items ++ more.items) }
    ensures err { OnErr result (all_in deltas.new.items ≡ all_in deltas.old.items) }
{
    let mut shared = share(alloc, more)?;
    deltas.append(&mut shared)
}

/// Returns whether a whole list is among deltas.
pub fn has_list(deltas: &[SharedDelta]) -> bool
    ensures { result ≡ has_list (deltas_of (all_in deltas.now)) }
{
    for delta in deltas {
        if is_list(delta) {
            return true;
        }
    }
    false
}

//! What deltas change, before they are published.
ghost use Rattle.std.specs.Prelude.{◌≡◌, IfOk, map};
ghost use Rattle.std.specs.Arc.{arc_value};
ghost use Rattle.spec_client_go.specs.Shifts.{all_shifts};
ghost use Rattle.indexer.specs.Shifted.{shift_of};
ghost use Rattle.reflector.specs.Deltas.{deltas_of};
ghost use Rattle.informer.specs.SharedDeltas.{all_in};

use crate::shared_deltas::SharedDelta;
use indexer::{Indexed, Shift};
use plain_informer::apply_more;
use std::alloc::{AllocError, Global};

/// Returns what deltas would change of a map, delta by delta, as they change a copy of it. The error is running out of memory.
fn on_a_copy(
    alloc: Global,
    from: &Indexed,
    deltas: &[SharedDelta],
) -> Result<Vec<Shift>, AllocError>
    ensures { IfOk result (λ v. map shift_of v.items ≡ all_shifts from.now.members (deltas_of (all_in deltas.now))) }
{
    let mut objects = from.try_copy()?;
    let mut shifts = Vec::new(alloc);
    for delta in deltas {
        apply_more(alloc, &mut objects, &mut shifts, delta)?;
    }
    Ok(shifts)
}

/// Returns what deltas would change of a map, delta by delta. It costs what they cost; where there are more than one, also a copy
/// of the map. The error is running out of memory.
pub fn changes_of(
    alloc: Global,
    from: &Indexed,
    deltas: &[SharedDelta],
) -> Result<Vec<Shift>, AllocError>
    ensures { IfOk result (λ v. map shift_of v.items ≡ all_shifts from.now.members (deltas_of (all_in deltas.now))) }
{
    match deltas {
        [delta] => from.shifts_of(alloc, delta),
        _ => on_a_copy(alloc, from, deltas),
    }
}

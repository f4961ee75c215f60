//! Deltas applied one after another, with what each changes.
ghost use Rattle.std.specs.Prelude.{◌≡◌, ◌++◌, IfOk, OnOk, OnErr, map};
ghost use Rattle.spec_client_go.specs.Informers.{all_applied, applied};
ghost use Rattle.spec_client_go.specs.Shifts.{all_shifts, shifts_of};
ghost use Rattle.reflector.specs.Deltas.{delta_of, deltas_of};
ghost use Rattle.indexer.specs.Shifted.{shift_of};

use indexer::{Indexed, Shift};
use reflector::Delta;
use std::alloc::{AllocError, Global};

/// A map after deltas, and what they changed, delta by delta.
#[derive(Drop)]
struct Applied {
    objects: Indexed,
    shifts: Vec<Shift>,
}

/// Appends shifts to others. The error is running out of memory, after which some may be there.
fn append_all(shifts: &mut Vec<Shift>, more: Vec<Shift>) -> Result<(), AllocError>
    ensures { OnOk result (map shift_of shifts.new.items ≡ map shift_of shifts.old.items ++ map shift_of more.items) }
{
    for shift in more {
        shifts.push(shift)?;
    }
    Ok(())
}

/// Applies one more delta, and appends what it changes. The error is running out of memory, after which the delta may be applied
/// and only some of its shifts appended.
pub fn apply_more(
    alloc: Global,
    objects: &mut Indexed,
    shifts: &mut Vec<Shift>,
    delta: &Delta,
) -> Result<(), AllocError>
    ensures objects { OnOk result (objects.new ≡ applied objects.old (delta_of delta.now)) }
    ensures shifts { OnOk result (map shift_of shifts.new.items ≡ map shift_of shifts.old.items ++ shifts_of objects.old.members (delta_of delta.now)) }
{
    let found = objects.apply_with_shifts(alloc, delta)?;
    append_all(shifts, found)
}

/// Returns a copy of a map after deltas, and what they change. The error is running out of memory.
fn apply_all(alloc: Global, from: &Indexed, deltas: &[Delta]) -> Result<Applied, AllocError>
    ensures objects { IfOk result (λ p. p.objects ≡ all_applied from.now (deltas_of deltas.now)) }
    ensures shifts { IfOk result (λ p. map shift_of p.shifts.items ≡ all_shifts from.now.members (deltas_of deltas.now)) }
{
    let mut objects = from.try_copy()?;
    let mut shifts = Vec::new(alloc);
    for delta in deltas {
        apply_more(alloc, &mut objects, &mut shifts, delta)?;
    }
    Ok(Applied { objects, shifts })
}

/// Applies deltas to a map, all of them, and returns what they change, delta by delta. One alone is applied in place, since it
/// changes nothing where it fails; more are applied to a copy. The error is running out of memory, and changes nothing.
pub(crate) fn publish_all(
    alloc: Global,
    published: &mut Indexed,
    deltas: &[Delta],
) -> Result<Vec<Shift>, AllocError>
    ensures ok { OnOk result (published.new ≡ all_applied published.old (deltas_of deltas.now)) }
    ensures shifts { IfOk result (λ v. map shift_of v.items ≡ all_shifts published.old.members (deltas_of deltas.now)) }
    ensures err { OnErr result (published.new ≡ published.old) }
{
    match deltas {
        [delta] => published.apply_with_shifts(alloc, delta),
        _ => {
            let applied = apply_all(alloc, published, deltas)?;
            *published = applied.objects;
            Ok(applied.shifts)
        }
    }
}

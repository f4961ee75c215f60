//! Published changes that are still to be handled.
ghost use Rattle.std.specs.Prelude.{◌≡◌, ◌++◌, ◌&&◌, not, OnOk, IfOk, map};
ghost use Rattle.spec_client_go.specs.Informers.{all_applied, applied};
ghost use Rattle.spec_client_go.specs.Shifts.{shifts_of};
ghost use Rattle.indexer.specs.Shifted.{shift_of};
ghost use Rattle.reflector.specs.Deltas.{delta_of, deltas_of};
ghost use Rattle.spec_sim.specs.Followers.{notifications, notified};
ghost use Rattle.sim_followers.specs.Notified.{is_replace, notification_of};

use indexer::{Indexed, Shift};
use reflector::Delta;
use std::alloc::{AllocError, Global};

/// A change that was published, and whether it is of the first list.
#[derive(Drop)]
pub struct Notification {
    pub shift: Shift,
    pub is_in_initial_list: bool,
}

/// Objects after deltas, and the changes that are to be handled.
#[derive(Drop)]
pub struct Applied {
    pub objects: Indexed,
    pub notifications: Vec<Notification>,
}

/// Returns whether a delta replaces all objects.
fn is_replace(delta: &Delta) -> bool
    ensures { result ≡ is_replace (delta_of delta.now) }
{
    match delta {
        Delta::Replace(..) => true,
        _ => false,
    }
}

/// Appends a notification for each of these changes. The error is running out of memory, after which some may be there.
fn notify(
    notifications: &mut Vec<Notification>,
    shifts: Vec<Shift>,
    is_in_initial_list: bool,
) -> Result<(), AllocError>
    ensures { OnOk result (map notification_of notifications.new.items
        ≡ map notification_of notifications.old.items ++ notified is_in_initial_list (map shift_of shifts.items)) }
{
    for shift in shifts {
        notifications.push(Notification {
            shift,
            is_in_initial_list,
        })?;
    }
    Ok(())
}

/// Applies one more delta, and appends what is to be handled.
fn apply_more(
    alloc: Global,
    found: &mut Applied,
    delta: &Delta,
    has_listed: bool,
) -> Result<(), AllocError>
    ensures objects { OnOk result (found.new.objects ≡ applied found.old.objects (delta_of delta.now)) }
    ensures notifications { OnOk result (map notification_of found.new.notifications.items ≡ map notification_of found.old.notifications.items
        ++ notified (not has_listed && is_replace (delta_of delta.now)) (shifts_of found.old.objects.members (delta_of delta.now))) }
{
    let shifts = found.objects.apply_with_shifts(alloc, delta)?;
    let is_initial = !has_listed && is_replace(delta);
    notify(&mut found.notifications, shifts, is_initial)
}

/// Returns a copy of objects after deltas, and the changes that are to be handled, of which those of the first list are marked
/// unless it was published before. The error is running out of memory.
pub fn apply_all(
    alloc: Global,
    from: &Indexed,
    deltas: &[Delta],
    has_listed: bool,
) -> Result<Applied, AllocError>
    ensures objects { IfOk result (λ a. a.objects ≡ all_applied from.now (deltas_of deltas.now)) }
    ensures notifications { IfOk result (λ a. map notification_of a.notifications.items
        ≡ notifications has_listed from.now.members (deltas_of deltas.now)) }
{
    let mut applied = Applied {
        objects: from.try_copy()?,
        notifications: Vec::new(alloc),
    };
    let mut listed = has_listed;
    for delta in deltas {
        apply_more(alloc, &mut applied, delta, listed)?;
        listed = listed || is_replace(delta);
    }
    Ok(applied)
}

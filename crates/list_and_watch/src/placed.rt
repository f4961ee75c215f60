//! The uids that changes leave and put in place.
ghost use Rattle.std.specs.Prelude.{◌≡◌, ◌||◌, ℕ, List, IfOk, IfSome, OnOk, is_some, map, option_map};
ghost use Rattle.indexer.specs.Shifted.{shift_of};
ghost use Rattle.list_and_watch.specs.Placed.{AreAllPlaced, is_placed, may_be_placed, places};
ghost use Rattle.list_and_watch.specs.Recognized.{uid_in, uid_left};

use crate::sameness::is_same_text;
use indexer::Shift;
use reflector::SharedObject;
use std::alloc::{AllocError, Global};
use std::collections::BTreeSet;

/// So many changes are gone through sooner than a set of their uids is made.
const FEW: usize = 16;

/// Returns the uid of an object that is there.
pub(crate) fn uid_in(object: &Option<SharedObject>) -> Option<&str>
    ensures { option_map (λ s. s.now) result ≡ uid_in (option_map (λ o. o.value) object.now) }
{
    match object {
        Some(object) => object.object().uid(),
        None => None,
    }
}

/// Returns the uid that a change leaves no longer where it was.
pub(crate) fn uid_left(shift: &Shift) -> Option<&str>
    ensures { option_map (λ s. s.now) result ≡ uid_left (shift_of shift.now) }
{
    let old = uid_in(&shift.old);
    if is_same_text(old, uid_in(&shift.new)) {
        None
    } else {
        old
    }
}

/// Returns whether a change leaves a uid no longer where it was.
fn leaves_uid(shift: &Shift) -> bool
    ensures { result ≡ is_some (uid_left (shift_of shift.now)) }
{
    uid_left(shift).is_some()
}

/// Adds the uid that a change puts in place, if it puts one. The error is running out of memory.
fn add_placed<'a>(uids: &mut BTreeSet<&'a str>, shift: &'a Shift) -> Result<(), AllocError>
    ensures { OnOk result ((u : List ℕ) → is_placed uids.new u ≡ (places u (shift_of shift.now) || is_placed uids.old u)) }
{
    if let Some(uid) = uid_in(&shift.new) {
        uids.insert(uid)?;
    }
    Ok(())
}

/// Returns the uids that changes put in place. The error is running out of memory.
fn all_placed(alloc: Global, shifts: &[Shift]) -> Result<BTreeSet<&str>, AllocError>
    ensures { IfOk result (λ uids. AreAllPlaced uids (map shift_of shifts.now)) }
{
    let mut uids = BTreeSet::new(alloc);
    for shift in shifts {
        add_placed(&mut uids, shift)?;
    }
    Ok(uids)
}

/// Returns the uids that changes put in place, if there is memory for them. None are where the changes are few, or leave no uid.
pub(crate) fn uids_placed(shifts: &[Shift]) -> Option<BTreeSet<&str>>
    ensures { IfSome result (λ uids. AreAllPlaced uids (map shift_of shifts.now)) }
{
    if shifts.len() <= FEW || !shifts.iter().any(leaves_uid) {
        return None;
    }
    let alloc = *shifts.first()?.key.name.allocator();
    all_placed(alloc, shifts).ok()
}

/// Returns whether a uid is among those that are put in place, or these are not known.
pub(crate) fn may_be_placed(uids: &Option<BTreeSet<&str>>, uid: &str) -> bool
    ensures { result ≡ may_be_placed uids.now uid.now }
{
    match uids {
        Some(uids) => uids.contains(uid),
        None => true,
    }
}

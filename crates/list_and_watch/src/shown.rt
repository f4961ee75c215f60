//! Whether what is published shows another server.
ghost use Rattle.std.specs.Prelude.{◌≡◌, Some, IfSome, map, option_map};
ghost use Rattle.object_keys.specs.Keys.{key_of};
ghost use Rattle.indexer.specs.Shifted.{shift_of};
ghost use Rattle.list_and_watch.specs.Placed.{AreAllPlaced};
ghost use Rattle.list_and_watch.specs.Recognized.{has_moved, is_created_again, is_elsewhere, is_same_name, shows_other_in, shows_other_server, uid_left};

use crate::placed::{may_be_placed, uid_in, uid_left, uids_placed};
use crate::sameness::{creation, is_same_text};
use indexer::Shift;
use object_keys::Key;
use reflector::SharedObject;
use std::collections::BTreeSet;

/// Returns whether an object has the uid of another one, and was created at another moment.
fn is_created_again(old: &Option<SharedObject>, new: &Option<SharedObject>) -> bool
    ensures { result ≡ is_created_again (option_map (λ o. o.value) old.now) (option_map (λ o. o.value) new.now) }
{
    match (old, new) {
        (Some(old), Some(new)) => {
            let (old, new) = (old.object(), new.object());
            is_same_text(old.uid(), new.uid()) && !is_same_text(creation(old), creation(new))
        }
        _ => false,
    }
}

/// Returns whether two keys have one namespace and one name.
fn is_same_name(one: &Key, other: &Key) -> bool
    ensures { result ≡ is_same_name (key_of one.now) (key_of other.now) }
{
    one.namespace.as_str() == other.namespace.as_str() && one.name.as_str() == other.name.as_str()
}

/// Returns whether a change puts this uid where another name is.
fn is_elsewhere(uid: &str, key: &Key, shift: &Shift) -> bool
    ensures { result ≡ is_elsewhere uid.now (key_of key.now) (shift_of shift.now) }
{
    is_same_text(Some(uid), uid_in(&shift.new)) && !is_same_name(key, &shift.key)
}

/// Returns whether one of the changes puts this uid where another name is.
fn has_moved(uid: &str, key: &Key, shifts: &[Shift]) -> bool
    ensures { result ≡ has_moved (Some uid.now) (key_of key.now) (map shift_of shifts.now) }
{
    for shift in shifts {
        if is_elsewhere(uid, key, shift) {
            return true;
        }
    }
    false
}

/// Returns whether the uid that a change leaves has moved to another name by one of the changes.
fn left_has_moved(uids: &Option<BTreeSet<&str>>, shifts: &[Shift], shift: &Shift) -> bool
    requires { IfSome uids.now (λ uids. AreAllPlaced uids (map shift_of shifts.now)) }
    ensures { result ≡ has_moved (uid_left (shift_of shift.now)) (key_of shift.now.key) (map shift_of shifts.now) }
{
    match uid_left(shift) {
        Some(uid) => may_be_placed(uids, uid) && has_moved(uid, &shift.key, shifts),
        None => false,
    }
}

/// Returns whether a change shows another server, beside the other changes of its publish.
fn shows_other_in(uids: &Option<BTreeSet<&str>>, shifts: &[Shift], shift: &Shift) -> bool
    requires { IfSome uids.now (λ uids. AreAllPlaced uids (map shift_of shifts.now)) }
    ensures { result ≡ shows_other_in (map shift_of shifts.now) (shift_of shift.now) }
{
    is_created_again(&shift.old, &shift.new) || left_has_moved(uids, shifts, shift)
}

/// Returns whether the changes of a publish show that another server gave what is now there: an object has the uid that it had, and was created
/// at another moment; or the uid of an object that is gone is that of one of another name. It takes as long as there are changes, and no memory,
/// where they are few or leave no uid. Else it takes as long as sorting the uids that they put in place, and memory for a set of them; where that
/// memory is refused, all changes are gone through for each uid that is left.
pub fn shows_other_server(shifts: &[Shift]) -> bool
    ensures { result ≡ shows_other_server (map shift_of shifts.now) }
{
    let uids = uids_placed(shifts);
    for shift in shifts {
        if shows_other_in(&uids, shifts, shift) {
            return true;
        }
    }
    false
}

//! Chunks of lists.
ghost use Rattle.std.specs.Prelude.{◌≡◌, ◌≤◌, ◌<◌, ◌++◌, [], ◌∷◌, ℕ, false, true, IfOk, IfSome, IfNone, length, map};
ghost use Rattle.spec_api.specs.History.{in_view, viewed};
ghost use Rattle.spec_api.specs.Lists.{is_selective};
ghost use Rattle.spec_api.specs.Verbs.{most_objects};
ghost use Rattle.object_keys.specs.Keys.{key_of};
ghost use Rattle.meta.specs.Members.{member_of};
ghost use Rattle.selector.specs.Views.{view_of};
ghost use Rattle.store.specs.Chunks.{IsFirst, Tells};
ghost use Rattle.store.specs.Seen.{members_seen};

use meta::lent_members::Member;
use meta::stored::StoredObject;
use object_keys::Key;
use selector::View;
use shared_map::EntriesLeft;
use std::alloc::{AllocError, Global};
use std::cmp::min;

/// How many objects a list has room for before any was seen: one of so many, 16 KiB of places, is not moved as it grows.
const LIKELY_MEMBERS: usize = 1_024;

/// A chunk of what a view asks for (Kubernetes API Concepts, Retrieving large results sets in chunks).
#[derive(Drop)]
pub struct Chunk<'a> {
    /// Its objects with their keys, in the order of their keys.
    pub members: Vec<Member<'a>>,
    /// How many objects of the view come after these. Where the view selects by labels or fields, this is not counted:
    /// it is 0 just if there are none.
    pub remaining: usize,
}

/// Returns whether a view asks for an object of a range, where it asks for each unless it selects by labels or fields.
fn asks_for(view: &View, key: &Key, object: &StoredObject) -> bool
    requires { is_selective (view_of view.now) ≡ false → in_view (view_of view.now) (key_of key.now) object.now.value ≡ true }
    ensures { result ≡ in_view (view_of view.now) (key_of key.now) object.now.value }
{
    !view.is_selective() || view.contains(key, object)
}

/// Removes the next object that a view asks for, and those before it, from a range, and returns it. A view that does not select by labels or fields
/// asks for each.
pub(crate) fn next_member<'a>(
    range: &mut EntriesLeft<'a, Key, StoredObject>,
    view: &View,
) -> Option<Member<'a>>
    requires all { is_selective (view_of view.now) ≡ false
        → viewed (view_of view.now) (members_seen range.old) ≡ members_seen range.old }
    ensures some { IfSome result (λ member. viewed (view_of view.now) (members_seen range.old)
        ≡ member_of member ∷ viewed (view_of view.now) (members_seen range.new)) }
    ensures none { IfNone result (viewed (view_of view.now) (members_seen range.old) ≡ []) }
    ensures left { IfNone result (viewed (view_of view.now) (members_seen range.new) ≡ []) }
    ensures all { viewed (view_of view.now) (members_seen range.old) ≡ members_seen range.old
        → viewed (view_of view.now) (members_seen range.new) ≡ members_seen range.new }
{
    while let Some((key, object)) = range.take_next() {
        if asks_for(view, key, object) {
            return Some(Member { key, object });
        }
    }
    None
}

/// Returns about how many objects a limit lets through. A limit may be far above what is there, so it is not believed.
fn likely_count(limit: usize) -> usize {
    if limit == 0 {
        LIKELY_MEMBERS
    } else {
        min(limit, LIKELY_MEMBERS)
    }
}

/// Takes the first objects that a view asks for from a range, as many as the limit says or all if it is 0, and leaves what
/// comes after them. The error is running out of memory.
pub(crate) fn first_members<'a>(
    alloc: Global,
    range: &mut EntriesLeft<'a, Key, StoredObject>,
    view: &View,
    limit: usize,
) -> Result<Vec<Member<'a>>, AllocError>
    requires all { is_selective (view_of view.now) ≡ false
        → viewed (view_of view.now) (members_seen range.old) ≡ members_seen range.old }
    ensures taken { IfOk result (λ taken. IsFirst limit (viewed (view_of view.now) (members_seen range.old))
        (map member_of taken.items) (viewed (view_of view.now) (members_seen range.new))) }
    ensures all { viewed (view_of view.now) (members_seen range.old) ≡ members_seen range.old
        → viewed (view_of view.now) (members_seen range.new) ≡ members_seen range.new }
{
    let mut taken = Vec::with_capacity(alloc, likely_count(limit))?;
    while limit == 0 || taken.len() < limit {
        match next_member(range, view) {
            Some(member) => taken.push(member)?,
            None => break,
        }
    }
    Ok(taken)
}

/// Returns how many objects of a range a view asks for: without a selection they are counted, and not looked at; with one, the
/// first is looked for, and 1 stands for any number.
pub(crate) fn remaining(mut range: EntriesLeft<'_, Key, StoredObject>, view: &View) -> usize
    requires all { is_selective (view_of view.now) ≡ false
        → viewed (view_of view.now) (members_seen range) ≡ members_seen range }
    ensures { Tells (view_of view.now) (length (viewed (view_of view.now) (members_seen range.entry))) result }
{
    if !view.is_selective() {
        return range.len();
    }
    match next_member(&mut range, view) {
        Some(_) => 1,
        None => 0,
    }
}

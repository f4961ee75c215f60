//! Two Pods that are listed, and what becomes of them.
use crate::assertions::{assert_same, assert_text};
use crate::fixtures::{ELSEWHERE, POD, RELEASED, listing, pod, put, remove, tell};
use indexer::Indexed;
use reflector::Delta;
use spec_api::kinds::Kind;
use std::alloc::{AllocError, Global};

/// A copy with the list of both Pods, at revision 7.
fn listed(alloc: Global) -> Result<Indexed, AllocError> {
    let mut indexed = Indexed::new(alloc);
    indexed.apply(&listing(alloc, Kind::Pod, 7, &[ELSEWHERE, POD])?)?;
    Ok(indexed)
}

/// Returns whether the Pod `p` is found.
fn has_p(alloc: Global, indexed: &Indexed) -> Result<bool, AllocError> {
    let key = pod(alloc, "default", "p")?;
    Ok(indexed.get(&key).is_some())
}

/// Adds a line to a text: the Pods of a copy, those that `web` owns, those that another one owns, those of the namespace `other`, whether
/// `p` is found, and the revision.
fn tell_all(alloc: Global, text: &mut String, indexed: &Indexed) -> Result<(), AllocError> {
    tell(text, indexed.list(alloc))?;
    tell(text, indexed.by_owner(alloc, "u-web"))?;
    tell(text, indexed.by_owner(alloc, "u-we"))?;
    tell(text, indexed.by_namespace(alloc, "other"))?;
    let has_p = has_p(alloc, indexed)?;
    let rest = format!(in alloc; "{has_p},{}\n", indexed.revision())?;
    text.push_str(rest.as_str())
}

/// Applies a delta, if there was memory for it, and adds a line to a text.
fn apply(
    alloc: Global,
    text: &mut String,
    indexed: &mut Indexed,
    delta: Result<Delta, AllocError>,
) -> Result<(), AllocError> {
    indexed.apply(&delta?)?;
    tell_all(alloc, text, indexed)
}

/// Releases `p`, removes `q` and marks a revision, with a line after each.
fn change(alloc: Global, text: &mut String, indexed: &mut Indexed) -> Result<(), AllocError> {
    apply(alloc, text, indexed, put(alloc, RELEASED))?;
    apply(alloc, text, indexed, remove(alloc, 8, "other", "q"))?;
    apply(alloc, text, indexed, Ok(Delta::Mark(9)))
}

/// Changes a copy, and adds a line for what there is at first, after each change, and in a copy that was made before.
fn follow(alloc: Global, text: &mut String, indexed: &mut Indexed) -> Result<(), AllocError> {
    tell_all(alloc, text, indexed)?;
    let before = indexed.try_copy()?;
    change(alloc, text, indexed)?;
    tell_all(alloc, text, &before)
}

/// What `follow` says of a copy with the list of both Pods.
fn followed(alloc: Global) -> Result<String, AllocError> {
    let mut text = String::new(alloc);
    let mut indexed = listed(alloc)?;
    follow(alloc, &mut text, &mut indexed)?;
    Ok(text)
}

// The indexes follow: an owner is left, an object goes, and a mark moves the revision alone. The copy is left alone.
#[test]
fn a_copy_follows_its_deltas(rt: HostRuntime) {
    let text = followed(rt.alloc());
    assert_text(&rt, &text, FOLLOWED);
}

const FOLLOWED: &str =
    "p q ,p q ,,q ,true,7\np q ,q ,,q ,true,6\np ,,,,true,8\np ,,,,true,9\np q ,p q ,,q ,true,7\n";

/// Applies a list, and returns how many objects that shifts, how many it shifted, and how many there are then.
fn relist(alloc: Global, indexed: &mut Indexed, list: &Delta) -> Result<[usize; 3], AllocError> {
    let shifts = indexed.shifts_of(alloc, list)?.len();
    let shifted = indexed.apply_with_shifts(alloc, list)?.len();
    Ok([shifts, shifted, indexed.len()])
}

/// What `relist` returns where `p` alone is listed.
fn relisted(alloc: Global) -> Result<[usize; 3], AllocError> {
    let list = listing(alloc, Kind::Pod, 8, &[POD])?;
    let mut indexed = listed(alloc)?;
    relist(alloc, &mut indexed, &list)
}

#[test]
fn a_relist_shifts_what_differs(rt: HostRuntime) {
    assert_same(&rt, &relisted(rt.alloc()), &Ok([1, 1, 1]));
}

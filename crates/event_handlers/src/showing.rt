//! What a change of a pod shows.
ghost use Rattle.std.specs.Prelude.{◌≡◌, ◌++◌, IfOk, map, option_map, [], string_bytes};
ghost use Rattle.spec_client_go.specs.Boards as boards;
ghost use Rattle.work_board.specs.Seen.{observation_of, owner_of};
ghost use Rattle.spec_reconcile.specs.PodClaims as claims;
ghost use Rattle.spec_sim.specs.PodObservations.{is_same_pod, was_being_deleted, creation, deletion, seen_now, seen_no_more, observations_of_pod, observations_by};
ghost use Rattle.indexer.specs.Shifted.{shift_of};
ghost use Rattle.event_handlers.specs.Changes.{data_of, seen_first, seen_deleted, of_old, of_new};

use crate::sets::sets_of;
use indexer::Shift;
use meta::{Kind, Object};
use owner_references::texts::is_text;
use reflector::SharedObject;
use std::alloc::{AllocError, Global};
use work_board::{Observation, Owner};

/// Returns whether two objects have one uid.
fn have_one_uid(one: &Object, other: &Object) -> bool
    ensures { result ≡ claims.have_one_uid one.now.value other.now.value }
{
    match one.uid() {
        Some(uid) => is_text(uid, other.uid()),
        None => false,
    }
}

/// Returns whether the other is this pod too: one with another uid is another pod.
fn is_same_pod(pod: &Object, other: Option<&Object>) -> bool
    ensures { result ≡ is_same_pod pod.now.value (data_of other.entry) }
{
    match other {
        None => false,
        Some(other) => have_one_uid(pod, other),
    }
}

/// Returns whether this pod was being deleted before.
fn was_being_deleted(pod: &Object, old: Option<&Object>) -> bool
    ensures { result ≡ was_being_deleted pod.now.value (data_of old.entry) }
{
    match old {
        None => false,
        Some(old) => have_one_uid(pod, old) && old.is_being_deleted(),
    }
}

/// Returns that each of these sets expects one pod less to be created.
fn creations(alloc: Global, sets: Vec<Owner>) -> Result<Vec<Observation>, AllocError>
    ensures { IfOk result (λ v. map observation_of v.items ≡ map boards.creation_observed (map owner_of sets.items)) }
{
    let mut found = Vec::with_capacity(alloc, sets.len())?;
    for owner in sets {
        found.push(Observation::CreationObserved { owner })?;
    }
    Ok(found)
}

/// Returns that each of these sets expects the pod of a uid no longer to be deleted.
fn deletions(alloc: Global, sets: Vec<Owner>, uid: &str) -> Result<Vec<Observation>, AllocError>
    ensures { IfOk result (λ v. map observation_of v.items ≡ map (λ o. boards.deletion_observed o uid.now) (map owner_of sets.items)) }
{
    let mut found = Vec::with_capacity(alloc, sets.len())?;
    for owner in sets {
        found.push(Observation::DeletionObserved {
            owner,
            pod: String::from_str(alloc, uid)?,
        })?;
    }
    Ok(found)
}

/// Returns what the creation of a pod shows.
fn creation(alloc: Global, pod: &Object) -> Result<Vec<Observation>, AllocError>
    ensures { IfOk result (λ v. map observation_of v.items ≡ creation pod.now.value) }
{
    creations(alloc, sets_of(alloc, pod)?)
}

/// Returns what the deletion of a pod shows.
fn deletion(alloc: Global, pod: &Object) -> Result<Vec<Observation>, AllocError>
    ensures { IfOk result (λ v. map observation_of v.items ≡ deletion pod.now.value) }
{
    match pod.uid() {
        None => Ok(Vec::new(alloc)),
        Some(uid) => deletions(alloc, sets_of(alloc, pod)?, uid),
    }
}

/// Returns what a pod shows that is there no more, unless it is there under another name of the change.
fn seen_no_more(
    alloc: Global,
    pod: &Object,
    new: Option<&Object>,
) -> Result<Vec<Observation>, AllocError>
    ensures { IfOk result (λ v. map observation_of v.items ≡ seen_no_more (data_of new.entry) pod.now.value) }
{
    if is_same_pod(pod, new) {
        return Ok(Vec::new(alloc));
    }
    deletion(alloc, pod)
}

/// Returns what a pod shows by being seen first.
fn seen_first(
    alloc: Global,
    pod: &Object,
    old: Option<&Object>,
) -> Result<Vec<Observation>, AllocError>
    ensures { IfOk result (λ v. map observation_of v.items ≡ seen_first (data_of old.entry) pod.now.value) }
{
    if is_same_pod(pod, old) {
        return Ok(Vec::new(alloc));
    }
    creation(alloc, pod)
}

/// Returns what a pod shows by being deleted, if it was not before.
fn seen_deleted(
    alloc: Global,
    pod: &Object,
    old: Option<&Object>,
) -> Result<Vec<Observation>, AllocError>
    ensures { IfOk result (λ v. map observation_of v.items ≡ seen_deleted (data_of old.entry) pod.now.value) }
{
    if !pod.is_being_deleted() || was_being_deleted(pod, old) {
        return Ok(Vec::new(alloc));
    }
    deletion(alloc, pod)
}

/// Returns what a pod shows that is there.
fn seen_now(
    alloc: Global,
    pod: &Object,
    old: Option<&Object>,
) -> Result<Vec<Observation>, AllocError>
    ensures { IfOk result (λ v. map observation_of v.items ≡ seen_now (data_of old.entry) pod.now.value) }
{
    let mut found = seen_first(alloc, pod, old)?;
    let mut deleted = seen_deleted(alloc, pod, old)?;
    found.append(&mut deleted)?;
    Ok(found)
}

/// Returns what the objects of a change show that was there, if one was.
fn of_old(
    alloc: Global,
    old: Option<&Object>,
    new: Option<&Object>,
) -> Result<Vec<Observation>, AllocError>
    ensures { IfOk result (λ v. map observation_of v.items ≡ of_old (data_of old.entry) (data_of new.entry)) }
{
    match old {
        None => Ok(Vec::new(alloc)),
        Some(pod) => seen_no_more(alloc, pod, new),
    }
}

/// Returns what the object of a change shows that is there, if one is.
fn of_new(
    alloc: Global,
    old: Option<&Object>,
    new: Option<&Object>,
) -> Result<Vec<Observation>, AllocError>
    ensures { IfOk result (λ v. map observation_of v.items ≡ of_new (data_of old.entry) (data_of new.entry)) }
{
    match new {
        None => Ok(Vec::new(alloc)),
        Some(pod) => seen_now(alloc, pod, old),
    }
}

/// Returns what a change of a pod shows.
fn of_pod(
    alloc: Global,
    old: Option<&Object>,
    new: Option<&Object>,
) -> Result<Vec<Observation>, AllocError>
    ensures { IfOk result (λ v. map observation_of v.items ≡ observations_of_pod (data_of old.entry) (data_of new.entry)) }
{
    let mut found = of_old(alloc, old, new)?;
    let mut shown = of_new(alloc, old, new)?;
    found.append(&mut shown)?;
    Ok(found)
}

/// Returns what a change shows of the pods that ReplicaSets expect: a pod that is seen first was created; one that vanished, or that is being
/// deleted and was not before, was deleted; another uid under its name is another pod. Changes of other kinds show nothing. The error is
/// running out of memory.
pub fn observations(alloc: Global, shift: &Shift) -> Result<Vec<Observation>, AllocError>
    ensures { IfOk result (λ v. map observation_of v.items ≡ observations_by shift.now.key.kind (shift_of shift.now)) }
{
    match shift.key.kind {
        Kind::Pod => of_pod(alloc, object_in(&shift.old), object_in(&shift.new)),
        _ => Ok(Vec::new(alloc)),
    }
}

/// Returns the object that is shared, if there is one. It takes no memory.
pub fn object_in(shared: &Option<SharedObject>) -> Option<&Object>
    ensures { data_of result ≡ option_map (λ o. o.value) shared.now }
{
    match shared {
        Some(object) => Some(object.object()),
        None => None,
    }
}

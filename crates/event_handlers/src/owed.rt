//! The work keys that a change owes.
ghost use Rattle.std.specs.Prelude.{◌≡◌, ◌++◌, IfOk, map, flat_map, option_map};
ghost use Rattle.object_keys.specs.Keys.{key_of};
ghost use Rattle.spec_client_go.specs.OwnerReferences.{controller_keys, owner_keys};
ghost use Rattle.spec_client_go.specs.OwedKeys.{keys_of, changed, one_of, own_key, adopters, deployments_of_pod, dependents, sets_to_look, deployments_to_look, items_to_look, itself, dependents_left, dependents_unless, lives_on};
ghost use Rattle.event_handlers.specs.Owed.{change_of};
ghost use Rattle.reconcile_types.specs.Hands.{looks_of};
ghost use Rattle.object_keys.specs.WorkKeys.{work_key_of};

use crate::key_lists::{add_all, in_order};
use crate::looking::{adopters, dependents_in};
use crate::rollouts::{deployments_of_pod, is_same, push_all};
use meta::{Kind, Object};
use object_keys::{Key, PerKind, WorkKey};
use owner_references::references::{controller_keys, namespace_of, owner_keys};
use reconcile_types::Seen;
use spec_client_go::controller::Controller;
use std::alloc::{AllocError, Global};
use std::collections::BTreeSet;

/// Returns keys, and then others.
fn joined(mut keys: Vec<Key>, more: Vec<Key>) -> Result<Vec<Key>, AllocError>
    ensures { IfOk result (λ v. map key_of v.items ≡ map key_of keys.items ++ map key_of more.items) }
{
    push_all(&mut keys, more)?;
    Ok(keys)
}

/// Returns the keys of the controllers of a kind that an object names, if it is there.
fn controller_keys_in(
    alloc: Global,
    kind: Kind,
    object: Option<&Object>,
) -> Result<Vec<Key>, AllocError>
    ensures { IfOk result (λ v. map key_of v.items
        ≡ flat_map (controller_keys kind) (one_of (option_map (λ o. o.now.value) object.entry))) }
{
    match object {
        Some(object) => controller_keys(alloc, kind, object),
        None => Ok(Vec::new(alloc)),
    }
}

/// Returns the keys of the owners that an object names, if it is there.
fn owner_keys_in(alloc: Global, object: Option<&Object>) -> Result<Vec<Key>, AllocError>
    ensures { IfOk result (λ v. map key_of v.items ≡ flat_map owner_keys (one_of (option_map (λ o. o.now.value) object.entry))) }
{
    match object {
        Some(object) => owner_keys(alloc, object),
        None => Ok(Vec::new(alloc)),
    }
}

/// Returns the keys of the ReplicaSets that may adopt an object, if it is there.
fn adopters_in<S: Seen>(
    alloc: Global,
    sets: &S,
    object: Option<&Object>,
) -> Result<Vec<Key>, AllocError>
    ensures { IfOk result (λ v. map key_of v.items
        ≡ flat_map (adopters (S.snapshot sets.now).members) (one_of (option_map (λ o. o.now.value) object.entry))) }
{
    match object {
        Some(object) => adopters(alloc, sets, object),
        None => Ok(Vec::new(alloc)),
    }
}

/// Returns the keys of the Deployments over a Pod, if it is there.
fn deployments_in<S: Seen>(
    alloc: Global,
    sets: &S,
    pod: Option<&Object>,
) -> Result<Vec<Key>, AllocError>
    ensures { IfOk result (λ v. map key_of v.items
        ≡ flat_map (deployments_of_pod (S.snapshot sets.now).members) (one_of (option_map (λ o. o.now.value) pod.entry))) }
{
    match pod {
        Some(pod) => deployments_of_pod(alloc, sets, pod),
        None => Ok(Vec::new(alloc)),
    }
}

/// Returns the key of an object of the kind.
fn own_key(alloc: Global, kind: Kind, object: &Object) -> Result<Key, AllocError>
    ensures { IfOk result (λ k. key_of k ≡ own_key kind object.now.value) }
{
    Ok(Key {
        kind,
        namespace: String::from_str(alloc, namespace_of(object))?,
        name: String::from_str(alloc, object.name().unwrap_or(""))?,
    })
}

/// Returns the key of an object, if it is there.
fn own_keys(alloc: Global, kind: Kind, object: Option<&Object>) -> Result<Vec<Key>, AllocError>
    ensures { IfOk result (λ v. map key_of v.items ≡ one_of (option_map (own_key kind) (option_map (λ o. o.now.value) object.entry))) }
{
    let mut keys = Vec::new(alloc);
    if let Some(object) = object {
        keys.push(own_key(alloc, kind, object)?)?;
    }
    Ok(keys)
}

/// Returns the keys of the ReplicaSets that are to be looked at.
fn sets_to_look<S: Seen>(
    alloc: Global,
    kind: Kind,
    old: Option<&Object>,
    new: Option<&Object>,
    looks: &PerKind<S>,
) -> Result<Vec<Key>, AllocError>
    ensures { IfOk result (λ v. map key_of v.items ≡ sets_to_look (looks_of S.snapshot looks.now)
        (change_of kind old.entry new.entry)) }
{
    match kind {
        Kind::ConfigMap => Ok(Vec::new(alloc)),
        Kind::Pod => {
            let before = controller_keys_in(alloc, Kind::ReplicaSet, old)?;
            let both = joined(before, controller_keys_in(alloc, Kind::ReplicaSet, new)?)?;
            joined(both, adopters_in(alloc, &looks.replica_sets, new)?)
        }
        Kind::ReplicaSet => own_keys(alloc, kind, new.or(old)),
        Kind::Deployment => Ok(Vec::new(alloc)),
    }
}

/// Returns the keys of the Deployments that are to be looked at.
fn deployments_to_look<S: Seen>(
    alloc: Global,
    kind: Kind,
    old: Option<&Object>,
    new: Option<&Object>,
    looks: &PerKind<S>,
) -> Result<Vec<Key>, AllocError>
    ensures { IfOk result (λ v. map key_of v.items ≡ deployments_to_look (looks_of S.snapshot looks.now)
        (change_of kind old.entry new.entry)) }
{
    match kind {
        Kind::ConfigMap => Ok(Vec::new(alloc)),
        Kind::Pod => deployments_in(alloc, &looks.replica_sets, old),
        Kind::ReplicaSet => joined(
            controller_keys_in(alloc, Kind::Deployment, old)?,
            controller_keys_in(alloc, Kind::Deployment, new)?,
        ),
        Kind::Deployment => own_keys(alloc, kind, new.or(old)),
    }
}

/// Returns the keys of all objects with an owner of this uid.
fn dependents<S: Seen>(alloc: Global, uid: &str, looks: &PerKind<S>) -> Result<Vec<Key>, AllocError>
    ensures { IfOk result (λ v. map key_of v.items ≡ dependents (looks_of S.snapshot looks.now)
        uid.now) }
{
    let config_maps = dependents_in(alloc, &looks.config_maps, uid)?;
    let pods = dependents_in(alloc, &looks.pods, uid)?;
    let replica_sets = dependents_in(alloc, &looks.replica_sets, uid)?;
    let deployments = dependents_in(alloc, &looks.deployments, uid)?;
    let apps = joined(replica_sets, deployments)?;
    let later = joined(pods, apps)?;
    joined(config_maps, later)
}

/// Returns the keys of all objects with an owner of this uid, if there is one.
fn dependents_of<S: Seen>(
    alloc: Global,
    uid: Option<&str>,
    looks: &PerKind<S>,
) -> Result<Vec<Key>, AllocError>
    ensures { IfOk result (λ v. map key_of v.items ≡ flat_map (dependents (looks_of S.snapshot looks.now))
        (one_of (option_map (λ s. s.now) uid.entry))) }
{
    match uid {
        Some(uid) => dependents(alloc, uid, looks),
        None => Ok(Vec::new(alloc)),
    }
}

/// Returns whether an object with the uid of this one is there, and is not being deleted.
fn lives_on(new: Option<&Object>, object: &Object) -> bool
    ensures { result ≡ lives_on (option_map (λ o. o.now.value) new.entry) object.now.value }
{
    match new {
        Some(new) => is_same(object.uid(), new.uid()) && !new.is_being_deleted(),
        None => false,
    }
}

/// Returns the keys of the dependents of an object that is gone, is being deleted, or whose name another has.
fn dependents_unless<S: Seen>(
    alloc: Global,
    new: Option<&Object>,
    object: &Object,
    looks: &PerKind<S>,
) -> Result<Vec<Key>, AllocError>
    ensures { IfOk result (λ v. map key_of v.items ≡ dependents_unless (looks_of S.snapshot looks.now)
        (option_map (λ o. o.now.value) new.entry) object.now.value) }
{
    if lives_on(new, object) {
        return Ok(Vec::new(alloc));
    }
    dependents_of(alloc, object.uid(), looks)
}

/// Returns those of an object, if it is there.
fn dependents_unless_in<S: Seen>(
    alloc: Global,
    new: Option<&Object>,
    object: Option<&Object>,
    looks: &PerKind<S>,
) -> Result<Vec<Key>, AllocError>
    ensures { IfOk result (λ v. map key_of v.items ≡ flat_map
        (dependents_unless (looks_of S.snapshot looks.now) (option_map (λ o. o.now.value) new.entry))
        (one_of (option_map (λ o. o.now.value) object.entry))) }
{
    match object {
        Some(object) => dependents_unless(alloc, new, object, looks),
        None => Ok(Vec::new(alloc)),
    }
}

/// Returns those of the object as it was, and as it is.
fn dependents_left<S: Seen>(
    alloc: Global,
    kind: Kind,
    old: Option<&Object>,
    new: Option<&Object>,
    looks: &PerKind<S>,
) -> Result<Vec<Key>, AllocError>
    ensures { IfOk result (λ v. map key_of v.items ≡ dependents_left (looks_of S.snapshot looks.now)
        (change_of kind old.entry new.entry)) }
{
    let before = dependents_unless_in(alloc, new, old, looks)?;
    joined(before, dependents_unless_in(alloc, new, new, looks)?)
}

/// Returns the keys of the objects that the collector is to look at.
fn items_to_look<S: Seen>(
    alloc: Global,
    kind: Kind,
    old: Option<&Object>,
    new: Option<&Object>,
    looks: &PerKind<S>,
) -> Result<Vec<Key>, AllocError>
    ensures { IfOk result (λ v. map key_of v.items ≡ items_to_look (looks_of S.snapshot looks.now)
        (change_of kind old.entry new.entry)) }
{
    let itself = own_keys(alloc, kind, new)?;
    let before = owner_keys_in(alloc, old)?;
    let owners = joined(before, owner_keys_in(alloc, new)?)?;
    let left = dependents_left(alloc, kind, old, new, looks)?;
    joined(itself, joined(owners, left)?)
}

/// Returns the work keys that a change of an object of a kind owes, each once: those of the ReplicaSet controller, then those
/// of the Deployment controller, then those of the collector, each in the order of keys. The error is running out of memory.
#[tactic(auto, using(crate::proofs::SeenTasks::with_keys_joined))]
pub fn keys_of<S: Seen>(
    alloc: Global,
    kind: Kind,
    old: Option<&Object>,
    new: Option<&Object>,
    looks: &PerKind<S>,
) -> Result<Vec<WorkKey>, AllocError>
    ensures { IfOk result (λ v. map work_key_of v.items ≡ keys_of
        (change_of kind old.entry new.entry)
        (looks_of S.snapshot looks.now)) }
{
    let sets = sets_to_look(alloc, kind, old, new, looks)?;
    let deployments = deployments_to_look(alloc, kind, old, new, looks)?;
    let items = items_to_look(alloc, kind, old, new, looks)?;
    let mut owed = BTreeSet::new(alloc);
    add_all(&mut owed, Controller::ReplicaSet, sets)?;
    add_all(&mut owed, Controller::Deployment, deployments)?;
    add_all(&mut owed, Controller::Collector, items)?;
    in_order(alloc, owed)
}

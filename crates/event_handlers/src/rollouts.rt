//! The Deployments over a Pod.
ghost use Rattle.std.specs.Prelude.{◌≡◌, ◌++◌, IfOk, OnOk, map, option_and_then, option_map};
ghost use Rattle.spec_api.specs.History.{found};
ghost use Rattle.spec_api.specs.SelectorValues.{is_some_and};
ghost use Rattle.spec_api.specs.declared.kinds.Kind.TheVariants.{ReplicaSet};
ghost use Rattle.spec_client_go.specs.OwnerReferences.{is_text, key_named};
ghost use Rattle.object_keys.specs.Keys.{key_of};
ghost use Rattle.meta.specs.Owners.{owner_of};
ghost use Rattle.spec_client_go.specs.OwedKeys.{deployments_if, deployments_over, deployments_of_pod};

use meta::{Kind, Object, OwnerReference};
use object_keys::Key;
use owner_references::references::{controller_keys, controllers, key_named, namespace_of};
use owner_references::texts::is_text;
use reconcile_types::Seen;
use std::alloc::{AllocError, Global};

/// Returns whether both uids are there, and are the same.
pub fn is_same(uid: Option<&str>, found: Option<&str>) -> bool
    ensures { result ≡ is_some_and (λ t. is_text t (option_map (λ s. s.now) found.entry)) (option_map (λ s. s.now) uid.entry) }
{
    match uid {
        Some(uid) => is_text(uid, found),
        None => false,
    }
}

/// Returns the keys of the Deployments that control a ReplicaSet, if it has this uid.
fn deployments_if(alloc: Global, uid: Option<&str>, set: &Object) -> Result<Vec<Key>, AllocError>
    ensures { IfOk result (λ v. map key_of v.items ≡ deployments_if (option_map (λ s. s.now) uid.entry) set.now.value) }
{
    if is_same(uid, set.uid()) {
        return controller_keys(alloc, Kind::Deployment, set);
    }
    Ok(Vec::new(alloc))
}

/// Returns the ReplicaSet that a reference names, if it is there.
fn set_named<'a, S: Seen>(
    alloc: Global,
    sets: &'a S,
    namespace: &str,
    owner: &OwnerReference<'_>,
) -> Result<Option<&'a Object>, AllocError>
    ensures { IfOk result (λ o. option_map (λ o. o.now.value) o
        ≡ option_and_then (λ n. found n (S.snapshot sets.entry.now).members) (key_named namespace.now ReplicaSet (owner_of owner.now).name)) }
{
    match key_named(alloc, namespace, Kind::ReplicaSet, owner.name)? {
        Some(key) => Ok(sets.get(&key)),
        None => Ok(None),
    }
}

/// Returns the keys of the Deployments that control the ReplicaSet that a reference names.
fn deployments_over<S: Seen>(
    alloc: Global,
    sets: &S,
    namespace: &str,
    owner: &OwnerReference<'_>,
) -> Result<Vec<Key>, AllocError>
    ensures { IfOk result (λ v. map key_of v.items ≡ deployments_over (S.snapshot sets.now).members namespace.now (owner_of owner.now)) }
{
    match set_named(alloc, sets, namespace, owner)? {
        Some(set) => deployments_if(alloc, owner.uid, set),
        None => Ok(Vec::new(alloc)),
    }
}

/// Adds keys to others.
pub fn push_all(keys: &mut Vec<Key>, more: Vec<Key>) -> Result<(), AllocError>
    ensures { OnOk result (map key_of keys.new.items ≡ map key_of keys.old.items ++ map key_of more.items) }
{
    for key in more {
        keys.push(key)?;
    }
    Ok(())
}

/// Returns the keys of the Deployments that control the ReplicaSets that control a Pod.
pub fn deployments_of_pod<S: Seen>(
    alloc: Global,
    sets: &S,
    pod: &Object,
) -> Result<Vec<Key>, AllocError>
    ensures { IfOk result (λ v. map key_of v.items ≡ deployments_of_pod (S.snapshot sets.now).members pod.now.value) }
{
    let mut keys = Vec::new(alloc);
    for owner in controllers(alloc, Kind::ReplicaSet, pod)? {
        push_all(
            &mut keys,
            deployments_over(alloc, sets, namespace_of(pod), &owner)?,
        )?;
    }
    Ok(keys)
}

//! The keys that are looked at again after a list that is not the first.
ghost use Rattle.std.specs.Prelude.{◌≡◌, ◌++◌, IfOk, OnOk, map, option_map};
ghost use Rattle.spec_api.specs.Metadata.{uid as uid_of};
ghost use Rattle.spec_api.specs.SelectorValues.{is_some_and};
ghost use Rattle.spec_client_go.specs.OwedKeys.{for_controller};
ghost use Rattle.spec_client_go.specs.OwnerReferences.{is_text};
ghost use Rattle.spec_client_go.specs.declared.controller.Controller.TheVariants as controllers;
ghost use Rattle.object_keys.specs.Keys.{key_of};
ghost use Rattle.object_keys.specs.WorkKeys.{work_key_of};
ghost use Rattle.meta.specs.Owners.{owner_of};
ghost use Rattle.reconcile_types.specs.Hands.{looks_of};
ghost use Rattle.manager.specs.Relisted.{shown_of, is_shown, is_lost, lacks_owner, keys_in, lacking_in, lacking, relisted, keys_again};

use indexer::Indexed;
use list_and_watch::Cause;
use meta::{Kind, Object, OwnerReference};
use object_keys::{Key, PerKind, WorkKey};
use owner_references::references::{namespace_of, owner_key};
use owner_references::texts::is_text;
use spec_client_go::controller::Controller;
use std::alloc::{AllocError, Global};

/// Returns the map of a kind.
fn map_of(looks: &PerKind<Indexed>, kind: Kind) -> &Indexed
    ensures { result.now.members ≡ shown_of kind (looks_of (λ m. m) looks.now) }
{
    match kind {
        Kind::ConfigMap => &looks.config_maps,
        Kind::Pod => &looks.pods,
        Kind::ReplicaSet => &looks.replica_sets,
        Kind::Deployment => &looks.deployments,
    }
}

/// Returns whether an object has a uid, if there is one.
fn has_uid(object: &Object, uid: Option<&str>) -> bool
    ensures { result ≡ is_some_and (λ t. is_text t (uid_of object.now.value)) (option_map (λ s. s.now) uid.entry) }
{
    match uid {
        Some(uid) => is_text(uid, object.uid()),
        None => false,
    }
}

/// Returns whether an object under a key is shown, and has this uid.
fn is_shown(looks: &PerKind<Indexed>, uid: Option<&str>, key: &Key) -> bool
    ensures { result ≡ is_shown (looks_of (λ m. m) looks.now) (option_map (λ s. s.now) uid.entry) (key_of key.now) }
{
    match map_of(looks, key.kind).get(key) {
        Some(object) => has_uid(object, uid),
        None => false,
    }
}

/// Returns whether a reference in a namespace is to an object of a served kind that is not shown. The error is running out of memory.
fn is_lost(
    alloc: Global,
    looks: &PerKind<Indexed>,
    namespace: &str,
    owner: &OwnerReference<'_>,
) -> Result<bool, AllocError>
    ensures { IfOk result (λ b. b ≡ is_lost (looks_of (λ m. m) looks.now) namespace.now (owner_of owner.now)) }
{
    match owner_key(alloc, namespace, owner)? {
        Some(key) => Ok(!is_shown(looks, owner.uid, &key)),
        None => Ok(false),
    }
}

/// Returns whether one of an object's owners is of a served kind and is not shown. The error is running out of memory.
fn lacks_owner(alloc: Global, looks: &PerKind<Indexed>, object: &Object) -> Result<bool, AllocError>
    ensures { IfOk result (λ b. b ≡ lacks_owner (looks_of (λ m. m) looks.now) object.now.value) }
{
    for owner in object.owners(alloc)? {
        if is_lost(alloc, looks, namespace_of(object), &owner)? {
            return Ok(true);
        }
    }
    Ok(false)
}

/// Appends the keys of all objects of a map, for a controller. The error is running out of memory.
fn add_all_in(
    alloc: Global,
    keys: &mut Vec<WorkKey>,
    controller: Controller,
    objects: &Indexed,
) -> Result<(), AllocError>
    ensures { OnOk result (map work_key_of keys.new.items ≡ map work_key_of keys.old.items ++ for_controller controller (keys_in objects.now.members)) }
{
    for entry in objects.list(alloc)? {
        keys.push(WorkKey {
            controller,
            key: entry.key.try_copy()?,
        })?;
    }
    Ok(())
}

/// Appends the keys of the objects of a map that lack an owner, for the collector. The error is running out of memory.
fn add_lacking_in(
    alloc: Global,
    keys: &mut Vec<WorkKey>,
    looks: &PerKind<Indexed>,
    objects: &Indexed,
) -> Result<(), AllocError>
    ensures { OnOk result (map work_key_of keys.new.items
        ≡ map work_key_of keys.old.items ++ for_controller controllers.Collector (lacking_in (looks_of (λ m. m) looks.now) objects.now.members)) }
{
    for entry in objects.list(alloc)? {
        if lacks_owner(alloc, looks, entry.object)? {
            keys.push(WorkKey {
                controller: Controller::Collector,
                key: entry.key.try_copy()?,
            })?;
        }
    }
    Ok(())
}

/// Appends the keys of all objects that lack an owner, for the collector. The error is running out of memory.
fn add_lacking(
    alloc: Global,
    keys: &mut Vec<WorkKey>,
    looks: &PerKind<Indexed>,
) -> Result<(), AllocError>
    ensures { OnOk result (map work_key_of keys.new.items
        ≡ map work_key_of keys.old.items ++ for_controller controllers.Collector (lacking (looks_of (λ m. m) looks.now))) }
{
    add_lacking_in(alloc, keys, looks, &looks.config_maps)?;
    add_lacking_in(alloc, keys, looks, &looks.pods)?;
    add_lacking_in(alloc, keys, looks, &looks.replica_sets)?;
    add_lacking_in(alloc, keys, looks, &looks.deployments)
}

/// Returns the keys that are looked at again: each ReplicaSet and each Deployment, by its controller, and by the collector each object that names an
/// owner which is not there. An owner is looked up in its map. The error is running out of memory.
pub(crate) fn relisted(alloc: Global, looks: &PerKind<Indexed>) -> Result<Vec<WorkKey>, AllocError>
    ensures { IfOk result (λ v. map work_key_of v.items ≡ relisted (looks_of (λ m. m) looks.now)) }
{
    let mut keys = Vec::new(alloc);
    add_all_in(
        alloc,
        &mut keys,
        Controller::ReplicaSet,
        &looks.replica_sets,
    )?;
    add_all_in(alloc, &mut keys, Controller::Deployment, &looks.deployments)?;
    add_lacking(alloc, &mut keys, looks)?;
    Ok(keys)
}

/// Returns the keys that are looked at again for a cause: none but after a list that is not the first. The error is running out of memory.
pub(crate) fn keys_again(
    alloc: Global,
    cause: Cause,
    looks: &PerKind<Indexed>,
) -> Result<Vec<WorkKey>, AllocError>
    ensures { IfOk result (λ v. map work_key_of v.items ≡ keys_again cause looks.now) }
{
    match cause {
        Cause::LaterList => relisted(alloc, looks),
        Cause::FirstList | Cause::Changes => Ok(Vec::new(alloc)),
    }
}

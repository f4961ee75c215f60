//! What owner references name.
ghost use Rattle.std.specs.Prelude.{◌≡◌, IfOk, filter_map, map, option_map};
ghost use Rattle.object_keys.specs.Keys.{key_of};
ghost use Rattle.meta.specs.Owners.{owner_of};
ghost use Rattle.spec_client_go.specs.OwnerReferences.{refers_to, kind_referred, key_named, owner_key, namespace_of, owner_keys, controls_as, controllers, controller_keys};

use crate::texts::is_text;
use meta::{Kind, Object, OwnerReference};
use object_keys::Key;
use std::alloc::{AllocError, Global};

/// Returns whether a reference is to an object of the kind.
fn refers_to(kind: Kind, owner: &OwnerReference<'_>) -> bool
    ensures { result ≡ refers_to kind (owner_of owner.now) }
{
    is_text(kind.api_version(), owner.api_version) && is_text(kind.name(), owner.kind)
}

/// Returns the kind that a reference is to, if that is served.
fn kind_referred(owner: &OwnerReference<'_>) -> Option<Kind>
    ensures { result ≡ kind_referred (owner_of owner.now) }
{
    Kind::ALL
        .iter()
        .find(|kind| refers_to(**kind, owner))
        .copied()
}

/// Returns the key of a kind in a namespace, where a name is given.
pub fn key_named(
    alloc: Global,
    namespace: &str,
    kind: Kind,
    name: Option<&str>,
) -> Result<Option<Key>, AllocError>
    ensures { IfOk result (λ k. option_map key_of k ≡ key_named namespace.now kind (option_map (λ s. s.now) name.entry)) }
{
    match name {
        Some(name) => Ok(Some(Key {
            kind,
            namespace: String::from_str(alloc, namespace)?,
            name: String::from_str(alloc, name)?,
        })),
        None => Ok(None),
    }
}

/// Returns the key of an owner in a namespace, if its kind is served.
pub fn owner_key(
    alloc: Global,
    namespace: &str,
    owner: &OwnerReference<'_>,
) -> Result<Option<Key>, AllocError>
    ensures { IfOk result (λ k. option_map key_of k ≡ owner_key namespace.now (owner_of owner.now)) }
{
    match kind_referred(owner) {
        Some(kind) => key_named(alloc, namespace, kind, owner.name),
        None => Ok(None),
    }
}

/// Returns the namespace that an object names; the empty text where it names none.
pub fn namespace_of(object: &Object) -> &str
    ensures { result.now ≡ namespace_of object.now.value }
{
    object.namespace().unwrap_or("")
}

/// Returns the keys of the object's owners of served kinds.
pub fn owner_keys(alloc: Global, object: &Object) -> Result<Vec<Key>, AllocError>
    ensures { IfOk result (λ v. map key_of v.items ≡ owner_keys object.now.value) }
{
    keys_in(alloc, namespace_of(object), object.owners(alloc)?)
}

/// Returns the keys of owners of served kinds.
fn keys_in(
    alloc: Global,
    namespace: &str,
    owners: Vec<OwnerReference<'_>>,
) -> Result<Vec<Key>, AllocError>
    ensures { IfOk result (λ v. map key_of v.items ≡ filter_map (owner_key namespace.now) (map owner_of owners.entry.items)) }
{
    let mut keys = Vec::new(alloc);
    for owner in owners {
        if let Some(key) = owner_key(alloc, namespace, &owner)? {
            keys.push(key)?;
        }
    }
    Ok(keys)
}

/// Returns whether a reference is a controller's, and to an object of the kind.
pub fn controls_as(kind: Kind, owner: &OwnerReference<'_>) -> bool
    ensures { result ≡ controls_as kind (owner_of owner.now) }
{
    owner.is_controller && refers_to(kind, owner)
}

/// Returns the object's controller references to a kind.
pub fn controllers(
    alloc: Global,
    kind: Kind,
    object: &Object,
) -> Result<Vec<OwnerReference<'_>>, AllocError>
    ensures { IfOk result (λ v. map owner_of v.items ≡ controllers kind object.now.value) }
{
    let mut found = Vec::new(alloc);
    for owner in object.owners(alloc)? {
        if controls_as(kind, &owner) {
            found.push(owner)?;
        }
    }
    Ok(found)
}

/// Returns the keys of a kind that references name.
fn keys_of_kind(
    alloc: Global,
    namespace: &str,
    kind: Kind,
    owners: Vec<OwnerReference<'_>>,
) -> Result<Vec<Key>, AllocError>
    ensures { IfOk result (λ v. map key_of v.items ≡ filter_map (λ o. key_named namespace.now kind o.name) (map owner_of owners.entry.items)) }
{
    let mut keys = Vec::new(alloc);
    for owner in owners {
        if let Some(key) = key_named(alloc, namespace, kind, owner.name)? {
            keys.push(key)?;
        }
    }
    Ok(keys)
}

/// Returns the keys of the object's controllers of a kind.
pub fn controller_keys(alloc: Global, kind: Kind, object: &Object) -> Result<Vec<Key>, AllocError>
    ensures { IfOk result (λ v. map key_of v.items ≡ controller_keys kind object.now.value) }
{
    keys_of_kind(
        alloc,
        namespace_of(object),
        kind,
        controllers(alloc, kind, object)?,
    )
}

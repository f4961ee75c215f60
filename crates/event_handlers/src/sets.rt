//! Whose pod it is.
ghost use Rattle.std.specs.Prelude.{◌≡◌, IfOk, filter_map, map, option_map};
ghost use Rattle.meta.specs.Owners.{owner_of as reference_of};
ghost use Rattle.work_board.specs.Seen.{owner_of};
ghost use Rattle.spec_sim.specs.PodObservations.{set_named, sets_of};

use meta::{Kind, Object, OwnerReference};
use owner_references::references::{controllers, key_named, namespace_of};
use std::alloc::{AllocError, Global};
use work_board::Owner;

/// Returns the ReplicaSet that a reference names in a namespace, by key and uid; nothing, where it lacks one of them.
fn set_named(
    alloc: Global,
    namespace: &str,
    reference: &OwnerReference<'_>,
) -> Result<Option<Owner>, AllocError>
    ensures { IfOk result (λ o. option_map owner_of o ≡ set_named namespace.now (reference_of reference.now)) }
{
    let Some(key) = key_named(alloc, namespace, Kind::ReplicaSet, reference.name)? else {
        return Ok(None);
    };
    match reference.uid {
        None => Ok(None),
        Some(uid) => Ok(Some(Owner {
            key,
            uid: String::from_str(alloc, uid)?,
        })),
    }
}

/// Returns the ReplicaSets that references name in a namespace.
fn sets_in(
    alloc: Global,
    namespace: &str,
    references: Vec<OwnerReference<'_>>,
) -> Result<Vec<Owner>, AllocError>
    ensures { IfOk result (λ v. map owner_of v.items ≡ filter_map (set_named namespace.now) (map reference_of references.entry.items)) }
{
    let mut sets = Vec::new(alloc);
    for reference in references {
        if let Some(set) = set_named(alloc, namespace, &reference)? {
            sets.push(set)?;
        }
    }
    Ok(sets)
}

/// Returns the ReplicaSets that control a pod. The error is running out of memory.
pub(crate) fn sets_of(alloc: Global, pod: &Object) -> Result<Vec<Owner>, AllocError>
    ensures { IfOk result (λ v. map owner_of v.items ≡ sets_of pod.now.value) }
{
    let references = controllers(alloc, Kind::ReplicaSet, pod)?;
    sets_in(alloc, namespace_of(pod), references)
}

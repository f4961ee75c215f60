//! The owner references of pods that a ReplicaSet releases.
ghost use Rattle.std.specs.Prelude.{◌≡◌, not, filter, map, IfOk};
ghost use Rattle.serde_json.specs.View.{view};
ghost use Rattle.spec_api.specs.Metadata.{owner};
ghost use Rattle.spec_reconcile.specs.PodClaims.{is_to_controller, released};

use crate::claims::is_to_controller;
use meta::Object;
use owner_references::edits::{references, with_list};
use serde_json::Value;
use std::alloc::{AllocError, Global};

/// Returns copies of the references that are not to the set as the controller.
fn others(alloc: Global, set: &Object, references: &[Value]) -> Result<Vec<Value>, AllocError>
    ensures { IfOk result (λ v. map view v.items
        ≡ filter (λ r. not (is_to_controller set.now.value (owner r))) (map view references.now)) }
{
    let mut others = Vec::new(alloc);
    for reference in references {
        if !is_to_controller(set, reference) {
            others.push(reference.clone()?)?;
        }
    }
    Ok(others)
}

/// Returns the pod without its reference to the set as the controller. The error is running out of memory.
pub(crate) fn released(alloc: Global, set: &Object, pod: &Object) -> Result<Object, AllocError>
    ensures { IfOk result (λ o. o.value ≡ released set.now.value pod.now.value) }
{
    let others = others(alloc, set, references(pod))?;
    with_list(alloc, pod, "ownerReferences", others)
}

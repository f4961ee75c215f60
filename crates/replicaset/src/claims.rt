//! What it takes for a pod to be a ReplicaSet's, and for the set to adopt one.
ghost use Rattle.std.specs.Prelude.{◌≡◌, IfOk};
ghost use Rattle.serde_json.specs.View.{view};
ghost use Rattle.spec_api.specs.Checks.{requirements};
ghost use Rattle.spec_api.specs.Metadata.{owner};
ghost use Rattle.spec_reconcile.specs.PodClaims.{is_to_controller, is_adoptable, may_adopt, have_one_uid};
ghost use Rattle.spec_reconcile.specs.Pods.{is_owned, is_orphan, matches};
ghost use Rattle.object_fields.specs.Lent.{data_of};

use crate::pods::is_active;
use meta::Object;
use object_fields::in_spec;
use owner_references::controlled_by::{controls_with, has_controller, is_controlled_by};
use owner_references::texts::is_text;
use selector::{Selector, SelectorFault};
use serde_json::Value;
use std::alloc::{AllocError, Global};

/// Returns the selector of a ReplicaSet, if it has one that can be read. The error is running out of memory.
pub(crate) fn selector_of(alloc: Global, set: &Object) -> Result<Option<Selector>, AllocError>
    ensures { IfOk result (λ s. s ≡ requirements set.now.value) }
{
    match in_spec(set, "selector") {
        Some(value) => match Selector::of_value(alloc, value) {
            Ok(selector) => Ok(Some(selector)),
            Err(SelectorFault::NoMemory) => Err(AllocError),
            Err(_) => Ok(None),
        },
        None => Ok(None),
    }
}

/// Returns whether the selector is there and matches a pod's labels.
pub(crate) fn matches(set: &Object, selector: &Option<Selector>, pod: &Object) -> bool
    requires { selector.now ≡ requirements set.now.value }
    ensures { result ≡ matches set.now.value pod.now.value }
{
    match selector {
        Some(selector) => selector.matches(pod.metadata_member("labels")),
        None => false,
    }
}

/// Returns whether a reference is to the set as the controller.
pub(crate) fn is_to_controller(set: &Object, reference: &Value) -> bool
    ensures { result ≡ is_to_controller set.now.value (owner (view reference.now)) }
{
    match set.uid() {
        Some(uid) => controls_with(uid, reference),
        None => false,
    }
}

/// Returns whether a pod is active, and the set is its controller. It takes no memory.
pub(crate) fn is_owned(set: &Object, pod: &Object) -> bool
    ensures { result ≡ is_owned set.now.value pod.now.value }
{
    match set.uid() {
        Some(uid) => is_active(pod) && is_controlled_by(uid, pod),
        None => false,
    }
}

/// Returns whether a pod is active and has no controller.
fn is_orphan(pod: &Object) -> bool
    ensures { result ≡ is_orphan pod.now.value }
{
    is_active(pod) && !has_controller(pod)
}

/// Returns whether the set adopts a pod, if it may. It takes no memory.
pub(crate) fn is_adoptable(set: &Object, selector: &Option<Selector>, pod: &Object) -> bool
    requires { selector.now ≡ requirements set.now.value }
    ensures { result ≡ is_adoptable set.now.value pod.now.value }
{
    !set.is_being_deleted() && is_orphan(pod) && matches(set, selector, pod)
}

/// Returns whether two objects have one uid.
fn have_one_uid(one: &Object, other: &Object) -> bool
    ensures { result ≡ have_one_uid one.now.value other.now.value }
{
    match one.uid() {
        Some(uid) => is_text(uid, other.uid()),
        None => false,
    }
}

/// Returns whether the set may adopt pods, of what a live read found. It takes no memory.
pub(crate) fn may_adopt(set: &Object, live: Option<&Object>) -> bool
    ensures { result ≡ may_adopt set.now.value (data_of live.entry) }
{
    match live {
        Some(found) => have_one_uid(set, found) && !found.is_being_deleted(),
        None => false,
    }
}

//! What a pod says.
ghost use Rattle.std.specs.Prelude.{◌≡◌};
ghost use Rattle.serde_json.specs.View.{view, items_view};
ghost use Rattle.spec_reconcile.specs.Pods.{phase, is_active, is_ready_condition, any_item, is_ready};
ghost use Rattle.spec_reconcile.specs.PodRanks.{node, creation};

use meta::Object;
use object_fields::{in_spec, in_status, text_at, text_in};
use owner_references::texts::is_text;
use serde_json::Value;

/// Returns the pod's phase; the empty text where it has none.
pub(crate) fn phase(pod: &Object) -> &str
    ensures { result.now ≡ phase pod.now.value }
{
    text_in(in_status(pod, "phase"))
}

/// Returns the name of the node that the pod is on; the empty text where it names none.
pub(crate) fn node(pod: &Object) -> &str
    ensures { result.now ≡ node pod.now.value }
{
    text_in(in_spec(pod, "nodeName"))
}

/// Returns when the pod was created; the empty text where it does not say.
pub(crate) fn creation(pod: &Object) -> &str
    ensures { result.now ≡ creation pod.now.value }
{
    text_in(pod.metadata_member("creationTimestamp"))
}

/// Returns whether the pod is neither finished nor being deleted.
pub(crate) fn is_active(pod: &Object) -> bool
    ensures { result ≡ is_active pod.now.value }
{
    let phase = phase(pod);
    phase != "Succeeded" && phase != "Failed" && !pod.is_being_deleted()
}

/// Returns whether a condition says that its pod is ready.
fn is_ready_condition(condition: &Value) -> bool
    ensures { result ≡ is_ready_condition (view condition.now) }
{
    is_text("Ready", text_at(condition, "type")) && is_text("True", text_at(condition, "status"))
}

/// Returns whether one of the conditions says that their pod is ready.
fn any_is_ready(conditions: &[Value]) -> bool
    ensures { result ≡ any_item is_ready_condition (items_view conditions.now) }
{
    for condition in conditions {
        if is_ready_condition(condition) {
            return true;
        }
    }
    false
}

/// Returns whether the pod is ready.
pub(crate) fn is_ready(pod: &Object) -> bool
    ensures { result ≡ is_ready pod.now.value }
{
    match in_status(pod, "conditions") {
        Some(Value::Array(conditions)) => any_is_ready(conditions.as_slice()),
        _ => false,
    }
}

//! Whether an object has a controller.
ghost use Rattle.std.specs.Prelude.{◌≡◌, ◌&&◌};
ghost use Rattle.std.specs.List.{list_any};
ghost use Rattle.serde_json.specs.View.{view, items_view};
ghost use Rattle.spec_api.specs.Metadata.{Owner, owner, owners_in};
ghost use Rattle.spec_client_go.specs.OwnerReferences.{has_controller, is_controlled_by, is_text};

use crate::texts::is_text;
use meta::Object;
use object_fields::{text_at, truth_at};
use serde_json::Value;

/// Returns whether an owner reference is a controller's. It takes no memory.
pub fn is_controller(reference: &Value) -> bool
    ensures { result ≡ (owner (view reference.now)).is_controller }
{
    truth_at(reference, "controller")
}

/// Returns whether an owner reference is to an object of this uid as the controller. It takes no memory.
pub fn controls_with(uid: &str, reference: &Value) -> bool
    ensures { result ≡ ((owner (view reference.now)).is_controller && is_text uid.now (owner (view reference.now)).uid) }
{
    is_controller(reference) && is_text(uid, text_at(reference, "uid"))
}

/// Returns whether one of the references is a controller's.
fn any_controls(references: &[Value]) -> bool
    ensures { result ≡ list_any (λ (o : Owner). o.is_controller) (owners_in (items_view references.now)) }
{
    for reference in references {
        if is_controller(reference) {
            return true;
        }
    }
    false
}

/// Returns whether one of the references is to an object of this uid as the controller.
fn any_controls_with(uid: &str, references: &[Value]) -> bool
    ensures { result ≡ list_any (λ (o : Owner). o.is_controller && is_text uid.now o.uid) (owners_in (items_view references.now)) }
{
    for reference in references {
        if controls_with(uid, reference) {
            return true;
        }
    }
    false
}

/// Returns whether an object has a controller. It takes no memory.
pub fn has_controller(object: &Object) -> bool
    ensures { result ≡ has_controller object.now.value }
{
    match object.metadata_member("ownerReferences") {
        Some(Value::Array(references)) => any_controls(references.as_slice()),
        _ => false,
    }
}

/// Returns whether the object of this uid is the controller of an object. It takes no memory.
pub fn is_controlled_by(uid: &str, object: &Object) -> bool
    ensures { result ≡ is_controlled_by uid.now object.now.value }
{
    match object.metadata_member("ownerReferences") {
        Some(Value::Array(references)) => any_controls_with(uid, references.as_slice()),
        _ => false,
    }
}

//! Numbers that are not negative.
ghost use Rattle.std.specs.Prelude.{◌≡◌, Some, option_map};
ghost use Rattle.std.specs.List.{list_all};
ghost use Rattle.serde_json.specs.View.{view};
ghost use Rattle.spec_api.specs.Checks.{in_status, is_not_negative, are_replicas_valid, is_history_limit_valid, is_status_valid};

use meta::Object;
use object_fields::{in_spec, in_status};
use serde_json::Value;
use spec_api::kinds::Kind;

const REPLICA_SET_COUNTS: [&str; 3] = ["replicas", "readyReplicas", "availableReplicas"];

const DEPLOYMENT_COUNTS: [&str; 6] = [
    "replicas",
    "readyReplicas",
    "availableReplicas",
    "updatedReplicas",
    "unavailableReplicas",
    "collisionCount",
];

fn is_not_negative(found: &Value) -> bool
    ensures { result ≡ is_not_negative (Some (view found.now)) }
{
    match found.as_i64() {
        Some(number) => number >= 0,
        None => true,
    }
}

/// Returns whether `spec.replicas`, where it is there, is not negative.
pub(crate) fn are_replicas_valid(object: &Object) -> bool
    ensures { result ≡ are_replicas_valid object.now.value }
{
    match in_spec(object, "replicas") {
        Some(found) => is_not_negative(found),
        None => true,
    }
}

/// Returns whether `spec.revisionHistoryLimit`, where it is there, is not negative.
pub(crate) fn is_history_limit_valid(object: &Object) -> bool
    ensures { result ≡ is_history_limit_valid object.now.value }
{
    match in_spec(object, "revisionHistoryLimit") {
        Some(found) => is_not_negative(found),
        None => true,
    }
}

fn is_count(object: &Object, name: &str) -> bool
    ensures { result ≡ is_not_negative (in_status name.now object.now.value) }
{
    match in_status(object, name) {
        Some(found) => is_not_negative(found),
        None => true,
    }
}

/// Returns whether none of these counts in the status of an object is negative.
fn are_counts(object: &Object, names: &[&str]) -> bool
    ensures { result ≡ list_all (λ name. is_not_negative (in_status name.now object.now.value)) names.now }
{
    names.iter().all(|name| is_count(object, name))
}

/// Returns whether no count in the status of an object, as one of a kind, is negative.
pub fn is_status_valid(kind: Kind, object: &Object) -> bool
    ensures { result ≡ is_status_valid kind object.now.value }
{
    match kind {
        Kind::ConfigMap => true,
        Kind::Pod => true,
        Kind::ReplicaSet => are_counts(object, &REPLICA_SET_COUNTS),
        Kind::Deployment => are_counts(object, &DEPLOYMENT_COUNTS),
    }
}

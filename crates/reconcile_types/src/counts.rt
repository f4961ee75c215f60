//! The counts that objects say (Kubernetes API reference, ReplicaSetSpec, ReplicaSetStatus, DeploymentSpec and DeploymentStatus).
ghost use Rattle.std.specs.Prelude.{◌≡◌};
ghost use Rattle.spec_reconcile.specs.Counts.{count, count_in_spec, count_in_status, not_below_0};
ghost use Rattle.object_fields.specs.Lent.{value_of};

use meta::Object;
use object_fields::{in_spec, in_status};
use serde_json::Value;

/// Returns a number, or 0 for one below 0. It takes no memory.
pub fn not_below_0(number: i64) -> u64
    ensures { result ≡ not_below_0 number }
{
    if number < 0 { 0 } else { number as u64 }
}

/// Returns a whole number; 0 where none is.
fn count(found: Option<&Value>) -> u64
    ensures { result ≡ count (value_of found.entry) }
{
    match found {
        Some(value) => match value.as_i64() {
            Some(number) => not_below_0(number),
            None => 0,
        },
        None => 0,
    }
}

/// Returns the count at the member `name` of an object's `spec`; 0 where it says none. It takes no memory.
pub fn count_in_spec(object: &Object, name: &str) -> u64
    ensures { result ≡ count_in_spec name.now object.now.value }
{
    count(in_spec(object, name))
}

/// Returns the count at the member `name` of an object's `status`; 0 where it says none. It takes no memory.
pub fn count_in_status(object: &Object, name: &str) -> u64
    ensures { result ≡ count_in_status name.now object.now.value }
{
    count(in_status(object, name))
}

//! Sets that are to have another number of pods.
ghost use Rattle.std.specs.Prelude.{◌≡◌, IfOk};
ghost use Rattle.spec_reconcile.specs.Deployments.{with_replicas};

use json_values::values::whole_number;
use meta::Object;
use object_fields::inner;
use std::alloc::{AllocError, Global};

/// Returns the set that is to have so many pods. The error is running out of memory.
pub(crate) fn with_replicas(alloc: Global, set: Object, replicas: u64) -> Result<Object, AllocError>
    ensures { IfOk result (λ o. o.value ≡ with_replicas replicas set.value) }
{
    let spec = inner(alloc, set.kind(), set.member("spec"))?;
    let spec = spec.set_member(alloc, "replicas", whole_number(alloc, replicas)?)?;
    set.set_member(alloc, "spec", spec.into_value())
}

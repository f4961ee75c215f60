//! Work keys, each once and in order.
ghost use Rattle.std.specs.Prelude.{◌≡◌, IfOk, OnOk, map};
ghost use Rattle.object_keys.specs.Keys.{key_of};
ghost use Rattle.spec_client_go.specs.OwedKeys.{with_keys, for_controller};
ghost use Rattle.object_keys.specs.WorkKeys.{work_key_of};

use object_keys::{Key, WorkKey};
use spec_client_go::controller::Controller;
use std::alloc::{AllocError, Global};
use std::collections::BTreeSet;

/// Adds keys that a controller is to look at. The error is running out of memory, after which some may be there.
pub fn add_all(
    owed: &mut BTreeSet<WorkKey>,
    controller: Controller,
    keys: Vec<Key>,
) -> Result<(), AllocError>
    ensures { OnOk result (map work_key_of owed.new.keys
        ≡ with_keys (map work_key_of owed.old.keys) (for_controller controller (map key_of keys.items))) }
{
    for key in keys {
        owed.insert(WorkKey { controller, key })?;
    }
    Ok(())
}

/// Returns the keys in their order.
pub fn in_order(alloc: Global, owed: BTreeSet<WorkKey>) -> Result<Vec<WorkKey>, AllocError>
    ensures { IfOk result (λ v. map work_key_of v.items ≡ map work_key_of owed.keys) }
{
    let mut keys = Vec::with_capacity(alloc, owed.len())?;
    for key in owed {
        keys.push(key)?;
    }
    Ok(keys)
}

//! The status of an object, as its controller updates it (Kubernetes API Conventions, Spec and Status).
ghost use Rattle.std.specs.Prelude.{◌≡◌, ◌++◌, ◌∷◌, [], IfOk, OnOk, map};
ghost use Rattle.serde_json.specs.Data.{object, put};
ghost use Rattle.spec_api.specs.Defaults.{unsigned_value};
ghost use Rattle.spec_api.specs.Replacements.{says_the_same};
ghost use Rattle.spec_api.specs.Values.{members_of};
ghost use Rattle.spec_client_go.specs.Commands.{update_status};
ghost use Rattle.object_keys.specs.Keys.{key_of};
ghost use Rattle.spec_reconcile.specs.Statuses.{report_status, status, with_status};
ghost use Rattle.reconcile_types.specs.Commands.{command_of};

use crate::commands::Command;
use json_values::values::whole_number;
use meta::Object;
use object_fields::{inner, says_the_same};
use object_keys::Key;
use std::alloc::{AllocError, Global};

/// Returns a copy of an object's status, as an object; one that says nothing where it has none. The error is running out of
/// memory.
pub fn status(alloc: Global, holder: &Object) -> Result<Object, AllocError>
    ensures { IfOk result (λ o. o.value ≡ object (status holder.now.value)) }
{
    inner(alloc, holder.kind(), holder.member("status"))
}

/// Returns a status with a count at the member `name`. The error is running out of memory.
pub fn with_count(
    alloc: Global,
    status: Object,
    name: &str,
    count: u64,
) -> Result<Object, AllocError>
    ensures { IfOk result (λ o. o.value ≡ object (put name.now (unsigned_value count) (members_of status.value))) }
{
    status.set_member(alloc, name, whole_number(alloc, count)?)
}

/// Adds the command that updates an object's status, at the version that was looked at. The error is running out of memory.
pub fn add_update(
    alloc: Global,
    key: &Key,
    object: &Object,
    status: Object,
    commands: &mut Vec<Command>,
) -> Result<(), AllocError>
    ensures { OnOk result (map command_of commands.new.items ≡ map command_of commands.old.items
        ++ update_status (key_of key.now) (with_status (members_of status.value) object.now.value) ∷ []) }
{
    let copy = object.try_copy()?;
    let object = copy.set_member(alloc, "status", status.into_value())?;
    let key = key.try_copy()?;
    commands.push(Command::UpdateStatus { key, object })?;
    Ok(())
}

/// Adds the command that updates an object's status, where it changes. The error is running out of memory.
pub fn add_report(
    alloc: Global,
    key: &Key,
    object: &Object,
    new: Object,
    commands: &mut Vec<Command>,
) -> Result<(), AllocError>
    ensures { OnOk result (map command_of commands.new.items
        ≡ map command_of commands.old.items ++ report_status (key_of key.now) object.now.value (members_of new.value)) }
{
    if says_the_same(alloc, &status(alloc, object)?, &new)? {
        return Ok(());
    }
    add_update(alloc, key, object, new, commands)
}

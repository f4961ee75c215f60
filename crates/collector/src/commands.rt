//! Commands of the collector.
ghost use Rattle.std.specs.Prelude.{◌≡◌, ◌∷◌, [], IfOk, Some, map, option_map, string_bytes};
ghost use Rattle.spec_api.specs.Metadata.{uid, version};
ghost use Rattle.spec_client_go.specs.Commands.{update, delete, seen};
ghost use Rattle.object_keys.specs.Keys.{key_of};
ghost use Rattle.reconcile_types.specs.Commands.{command_of, version_of};
ghost use Rattle.spec_reconcile.specs.GarbageCollection.{remove};

use meta::Object;
use object_keys::Key;
use reconcile_types::{Command, Version};
use spec_api::policies::Policy;
use std::alloc::{AllocError, Global};

/// Returns a copy of a text, if it is there.
fn copied(alloc: Global, text: Option<&str>) -> Result<Option<String>, AllocError>
    ensures { IfOk result (λ t. option_map string_bytes t ≡ option_map (λ s. s.now) text.entry) }
{
    match text {
        Some(text) => Ok(Some(String::from_str(alloc, text)?)),
        None => Ok(None),
    }
}

/// Returns the version of an object as it was read, if it has one.
fn version_seen(alloc: Global, object: &Object) -> Result<Option<Version>, AllocError>
    ensures { IfOk result (λ v. option_map version_of v ≡ option_map seen (version object.now.value)) }
{
    match object.resource_version() {
        Some(version) => Ok(Some(Version::Seen(String::from_str(alloc, version)?))),
        None => Ok(None),
    }
}

/// Returns the update of what is under a key, at the version that the object names. The error is running out of memory.
pub fn update(key: &Key, object: Object) -> Result<Command, AllocError>
    ensures { IfOk result (λ c. command_of c ≡ update (key_of key.now) object.value) }
{
    let key = key.try_copy()?;
    Ok(Command::Update { key, object })
}

/// Returns the delete of an object by its uid, at a version. The error is running out of memory.
pub fn delete(
    alloc: Global,
    key: &Key,
    object: &Object,
    version: Option<Version>,
    policy: Policy,
) -> Result<Command, AllocError>
    ensures { IfOk result (λ c. command_of c
        ≡ delete (key_of key.now) (uid object.now.value) (option_map version_of version) (Some policy)) }
{
    let key = key.try_copy()?;
    let uid = copied(alloc, object.uid())?;
    Ok(Command::Delete {
        key,
        uid,
        version,
        policy: Some(policy),
    })
}

/// Returns a single command.
pub fn one(alloc: Global, command: Command) -> Result<Vec<Command>, AllocError>
    ensures { IfOk result (λ v. map command_of v.items ≡ command_of command ∷ []) }
{
    let mut commands = Vec::new(alloc);
    commands.push(command)?;
    Ok(commands)
}

/// Returns the delete of an object by its uid, at the version that was read. The error is running out of memory.
pub fn remove(
    alloc: Global,
    key: &Key,
    object: &Object,
    policy: Policy,
) -> Result<Vec<Command>, AllocError>
    ensures { IfOk result (λ v. map command_of v.items ≡ remove (key_of key.now) object.now.value policy) }
{
    let version = version_seen(alloc, object)?;
    let command = delete(alloc, key, object, version, policy)?;
    one(alloc, command)
}

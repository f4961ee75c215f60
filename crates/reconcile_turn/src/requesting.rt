//! The requests of commands.
ghost use Rattle.std.specs.Prelude.{◌≡◌, IfOk, option_map, string_bytes};
ghost use Rattle.spec_client_go.specs.Commands as commands;
ghost use Rattle.spec_client_go.specs.Commands.{version_named};
ghost use Rattle.spec_api.specs.Metadata.{version};
ghost use Rattle.request_parts.specs.Requests.{request_of};
ghost use Rattle.serde_json.specs.View.{view};
ghost use Rattle.reconcile_types.specs.Commands.{command_of, version_of};
ghost use Rattle.reconcile_turn.specs.Answers.{answers_of, last_version};
ghost use Rattle.reconcile_turn.specs.Seen.{data_of};

use crate::answers::CommandAnswer;
use lifecycle::DeleteOptions;
use meta::Object;
use reconcile_types::{Command, Version};
use request_parts::Request;
use serde_json::Value;
use std::alloc::{AllocError, Global};
use std::sync::Arc;

/// Returns the `resourceVersion` of the object that a text is, if it is one that has it. The error is running out of memory.
fn version_in_text(alloc: Global, text: &str) -> Result<Option<String>, AllocError>
    ensures { IfOk result (λ v. option_map string_bytes v ≡ version (data_of text.now)) }
{
    let value = match Value::from_str(alloc, text) {
        Ok(value) => value,
        Err(error) if error.is_memory() => return Err(AllocError),
        Err(_) => return Ok(None),
    };
    let Some(metadata) = value.get("metadata") else {
        return Ok(None);
    };
    let Some(found) = metadata.get("resourceVersion") else {
        return Ok(None);
    };
    match found.as_str() {
        Some(version) => Ok(Some(String::from_str(alloc, version)?)),
        None => Ok(None),
    }
}

/// Returns the version of the last answer, if it has one. The error is running out of memory.
fn last_version(
    alloc: Global,
    answers: &[Arc<CommandAnswer, Global>],
) -> Result<Option<String>, AllocError>
    ensures { IfOk result (λ v. option_map string_bytes v ≡ last_version (answers_of answers.now)) }
{
    let Some(last) = answers.last() else {
        return Ok(None);
    };
    match &**last {
        CommandAnswer::Accepted { text, .. } => version_in_text(alloc, text.as_str()),
        CommandAnswer::Refused { .. } => Ok(None),
        CommandAnswer::Lost => Ok(None),
    }
}

/// Returns the version that a command names, after these answers. The error is running out of memory.
fn version_named(
    alloc: Global,
    answers: &[Arc<CommandAnswer, Global>],
    version: &Option<Version>,
) -> Result<Option<String>, AllocError>
    ensures { IfOk result (λ v. option_map string_bytes v
        ≡ version_named (last_version (answers_of answers.now)) (option_map version_of version.now)) }
{
    match version {
        None => Ok(None),
        Some(Version::Seen(text)) => Ok(Some(text.clone()?)),
        Some(Version::Answered) => last_version(alloc, answers),
    }
}

/// Returns a copy of a text, if there is one. The error is running out of memory.
fn copy_of_text(text: &Option<String>) -> Result<Option<String>, AllocError>
    ensures { IfOk result (λ t. option_map string_bytes t ≡ option_map string_bytes text.now) }
{
    match text {
        Some(text) => Ok(Some(text.clone()?)),
        None => Ok(None),
    }
}

/// Returns a copy of an object's JSON. The error is running out of memory.
fn body_of(object: &Object) -> Result<Value, AllocError>
    ensures { IfOk result (λ v. view v ≡ object.now.value) }
{
    let copy = object.try_copy()?;
    Ok(copy.into_value())
}

/// Returns what a command asks of the server, after these answers to the commands before it. The error is running out of
/// memory.
pub fn request_of(
    alloc: Global,
    command: &Command,
    answers: &[Arc<CommandAnswer, Global>],
) -> Result<Request, AllocError>
    ensures { IfOk result (λ q. request_of q
        ≡ commands.request_of (last_version (answers_of answers.now)) (command_of command.now)) }
{
    match command {
        Command::Create { namespace, object } => Ok(Request::Create(
            object.kind(),
            namespace.clone()?,
            body_of(object)?,
        )),
        Command::Update { key, object } => Ok(Request::Update(key.try_copy()?, body_of(object)?)),
        Command::UpdateStatus { key, object } => {
            Ok(Request::UpdateStatus(key.try_copy()?, body_of(object)?))
        }
        Command::Delete {
            key,
            uid,
            version,
            policy,
        } => {
            let options = DeleteOptions {
                uid: copy_of_text(uid)?,
                version: version_named(alloc, answers, version)?,
                policy: *policy,
            };
            Ok(Request::Delete(key.try_copy()?, options))
        }
    }
}

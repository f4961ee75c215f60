//! Copies of commands and answers.
ghost use Rattle.std.specs.Prelude.{◌≡◌, IfOk, option_map, string_bytes};
ghost use Rattle.reconcile_types.specs.Commands.{command_of, version_of};
ghost use Rattle.reconcile_turn.specs.Seen.{answer_of};

use meta::Object;
use reconcile_turn::CommandAnswer;
use reconcile_types::{Command, Version};
use std::alloc::AllocError;

/// Returns a copy of a text, if there is one.
fn text(text: &Option<String>) -> Result<Option<String>, AllocError>
    ensures { IfOk result (λ copy. option_map string_bytes copy ≡ option_map string_bytes text.now) }
{
    match text {
        None => Ok(None),
        Some(text) => Ok(Some(text.clone()?)),
    }
}

/// Returns a copy of a version, if there is one.
fn version(version: &Option<Version>) -> Result<Option<Version>, AllocError>
    ensures { IfOk result (λ copy. option_map version_of copy ≡ option_map version_of version.now) }
{
    match version {
        None => Ok(None),
        Some(Version::Answered) => Ok(Some(Version::Answered)),
        Some(Version::Seen(seen)) => Ok(Some(Version::Seen(seen.clone()?))),
    }
}

/// Returns a copy of a command. The error is running out of memory.
pub fn command(command: &Command) -> Result<Command, AllocError>
    ensures { IfOk result (λ copy. command_of copy ≡ command_of command.now) }
{
    match command {
        Command::Create { namespace, object } => Ok(Command::Create {
            namespace: namespace.clone()?,
            object: object.try_copy()?,
        }),
        Command::Update { key, object } => Ok(Command::Update {
            key: key.try_copy()?,
            object: object.try_copy()?,
        }),
        Command::UpdateStatus { key, object } => Ok(Command::UpdateStatus {
            key: key.try_copy()?,
            object: object.try_copy()?,
        }),
        Command::Delete {
            key,
            uid,
            version: named,
            policy,
        } => Ok(Command::Delete {
            key: key.try_copy()?,
            uid: text(uid)?,
            version: version(named)?,
            policy: *policy,
        }),
    }
}

/// Returns a copy of an answer. The error is running out of memory.
pub fn answer(answer: &CommandAnswer) -> Result<CommandAnswer, AllocError>
    ensures { IfOk result (λ copy. answer_of copy ≡ answer_of answer.now) }
{
    match answer {
        CommandAnswer::Accepted { code, text } => Ok(CommandAnswer::Accepted {
            code: *code,
            text: text.clone()?,
        }),
        CommandAnswer::Refused { code } => Ok(CommandAnswer::Refused { code: *code }),
        CommandAnswer::Lost => Ok(CommandAnswer::Lost),
    }
}

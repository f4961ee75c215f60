//! The lines by which it is told what workers do, how many keys a change owed, and what time it is. Each is made before anything changes,
//! so that a step that runs out of memory changes nothing.
ghost use Rattle.std.specs.Prelude.{◌≡◌, IfOk, option_map, string_bytes, length};
ghost use Rattle.object_keys.specs.Keys.{key_of};
ghost use Rattle.spec_sim.specs.ControlPlaneOutcomeTexts as texts;
ghost use Rattle.spec_sim.specs.ControlPlaneOutcomeTexts.{outcome_text, answer_text, verb};
ghost use Rattle.spec_sim.specs.Outcomes as outcomes;
ghost use Rattle.reconcile_types.specs.Commands.{command_of};
ghost use Rattle.object_keys.specs.WorkKeys.{work_key_of};
ghost use Rattle.reconcile_turn.specs.Seen.{answer_of};
ghost use Rattle.std.specs.Prelude.{◌++◌, ◌∷◌, OnOk};

use crate::words::{begin, controller, end, push, push_key, push_named, push_number};
use object_keys::{Key, WorkKey};
use reconcile_turn::CommandAnswer;
use reconcile_types::Command;
use spec_api::kinds::Kind;
use std::alloc::{AllocError, Global};

/// Returns the line of a step that was not open. The error is running out of memory.
pub fn no_step(alloc: Global) -> Result<Vec<u8>, AllocError>
    ensures { IfOk result (λ l. l.items ≡ outcome_text outcomes.no_step) }
{
    end(begin(alloc, "no step")?)
}

/// Returns the line of a key that a worker takes, if one is queued. The error is running out of memory.
pub fn took(alloc: Global, worker: u64, key: Option<&WorkKey>) -> Result<Vec<u8>, AllocError>
    ensures { IfOk result (λ l. l.items ≡ outcome_text (outcomes.took worker (option_map (λ k. work_key_of k.now) key.entry))) }
{
    let mut line = begin(alloc, "took")?;
    push_number(alloc, &mut line, worker)?;
    match key {
        None => push(&mut line, "none")?,
        Some(key) => {
            push(&mut line, controller(key.controller))?;
            push_key(&mut line, &key.key)?;
        }
    }
    end(line)
}

/// Returns the line of a worker's look at what is published of a kind, at this revision. The error is running out of memory.
pub fn looked(alloc: Global, worker: u64, kind: Kind, revision: u64) -> Result<Vec<u8>, AllocError>
    ensures { IfOk result (λ l. l.items ≡ outcome_text (outcomes.looked worker kind revision)) }
{
    let mut line = begin(alloc, "looked")?;
    push_number(alloc, &mut line, worker)?;
    push(&mut line, kind.plural())?;
    push_number(alloc, &mut line, revision)?;
    end(line)
}

/// Returns the line of whether all pods that were expected have been seen. The error is running out of memory.
pub fn satisfied(alloc: Global, worker: u64, is_satisfied: bool) -> Result<Vec<u8>, AllocError>
    ensures { IfOk result (λ l. l.items ≡ outcome_text (outcomes.satisfied worker is_satisfied)) }
{
    let mut line = begin(alloc, "satisfied")?;
    push_number(alloc, &mut line, worker)?;
    push(&mut line, if is_satisfied { "yes" } else { "no" })?;
    end(line)
}

/// Returns the line of a live read of a key, which found this `resourceVersion`, or nothing. The error is running out of memory.
pub fn read(
    alloc: Global,
    worker: u64,
    key: &Key,
    version: Option<&str>,
) -> Result<Vec<u8>, AllocError>
    ensures { IfOk result (λ l. l.items ≡ outcome_text (outcomes.read worker (key_of key.now) (option_map (λ v. v.now) version.entry))) }
{
    let mut line = begin(alloc, "read")?;
    push_number(alloc, &mut line, worker)?;
    push_key(&mut line, key)?;
    push(&mut line, version.unwrap_or("absent"))?;
    end(line)
}

/// Returns the line of how many pods are expected to be created, and how many to be deleted. The error is running out of memory.
pub fn expected(
    alloc: Global,
    worker: u64,
    creations: u64,
    deletions: u64,
) -> Result<Vec<u8>, AllocError>
    ensures { IfOk result (λ l. l.items ≡ outcome_text (outcomes.expected worker creations deletions)) }
{
    let mut line = begin(alloc, "expected")?;
    push_number(alloc, &mut line, worker)?;
    push_number(alloc, &mut line, creations)?;
    push_number(alloc, &mut line, deletions)?;
    end(line)
}

/// Adds what a command asks for, and the key of its object; where the server makes its name, what the name is made of stands for it.
fn push_command(line: &mut Vec<u8>, command: &Command) -> Result<(), AllocError>
    ensures { OnOk result (line.new.items ≡ line.old.items ++ (32 ∷ (verb (command_of command.now) ++ (32 ∷ texts.key_text (texts.key_of (command_of command.now)))))) }
{
    match command {
        Command::Create { namespace, object } => {
            push(line, "create")?;
            let name = object
                .name()
                .unwrap_or(object.generate_name().unwrap_or(""));
            push_named(line, object.kind(), namespace.as_str(), name)
        }
        Command::Update { key, .. } => {
            push(line, "update")?;
            push_key(line, key)
        }
        Command::UpdateStatus { key, .. } => {
            push(line, "status")?;
            push_key(line, key)
        }
        Command::Delete { key, .. } => {
            push(line, "delete")?;
            push_key(line, key)
        }
    }
}

/// Adds the code of an answer, or that it was lost.
fn push_answer(alloc: Global, line: &mut Vec<u8>, answer: &CommandAnswer) -> Result<(), AllocError>
    ensures { OnOk result (line.new.items ≡ line.old.items ++ (32 ∷ answer_text (answer_of answer.now))) }
{
    match answer {
        CommandAnswer::Accepted { code, .. } => push_number(alloc, line, *code as u64),
        CommandAnswer::Refused { code } => push_number(alloc, line, *code as u64),
        CommandAnswer::Lost => push(line, "lost"),
    }
}

/// Returns the line of a command that a worker issues, with its answer. The error is running out of memory.
pub fn issued(
    alloc: Global,
    worker: u64,
    command: &Command,
    answer: &CommandAnswer,
) -> Result<Vec<u8>, AllocError>
    ensures { IfOk result (λ l. l.items ≡ outcome_text (outcomes.issued worker (command_of command.now) (answer_of answer.now))) }
{
    let mut line = begin(alloc, "issued")?;
    push_number(alloc, &mut line, worker)?;
    push_command(&mut line, command)?;
    push_answer(alloc, &mut line, answer)?;
    end(line)
}

/// Returns the line of the end of a worker's turn, and whether all went well in it. The error is running out of memory.
pub fn finished(alloc: Global, worker: u64, is_accepted: bool) -> Result<Vec<u8>, AllocError>
    ensures { IfOk result (λ l. l.items ≡ outcome_text (outcomes.finished worker is_accepted)) }
{
    let mut line = begin(alloc, "finished")?;
    push_number(alloc, &mut line, worker)?;
    push(&mut line, if is_accepted { "done" } else { "retry" })?;
    end(line)
}

/// Returns the line of how many work keys a change of a kind owed. The error is running out of memory.
pub fn handled(alloc: Global, kind: Kind, count: u64) -> Result<Vec<u8>, AllocError>
    ensures { IfOk result (λ l. l.items ≡ outcome_text (outcomes.handled kind count)) }
{
    let mut line = begin(alloc, "handled")?;
    push(&mut line, kind.plural())?;
    push_number(alloc, &mut line, count)?;
    end(line)
}

/// Returns the line of what time it is, in milliseconds. The error is running out of memory.
pub fn time(alloc: Global, milliseconds: u64) -> Result<Vec<u8>, AllocError>
    ensures { IfOk result (λ l. l.items ≡ outcome_text (outcomes.time milliseconds)) }
{
    let mut line = begin(alloc, "time")?;
    push_number(alloc, &mut line, milliseconds)?;
    end(line)
}

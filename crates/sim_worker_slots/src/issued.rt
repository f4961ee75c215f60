//! Commands that were issued.
ghost use Rattle.std.specs.Prelude.{◌≡◌, IfOk};
ghost use Rattle.std.specs.Arc.{arc_value};
ghost use Rattle.reconcile_types.specs.Commands.{command_of};
ghost use Rattle.sim_worker_slots.specs.Seen.{issued_of};
ghost use Rattle.reconcile_turn.specs.Seen.{answer_of};

use crate::copies;
use reconcile_turn::{CommandAnswer, Turn};
use reconcile_types::Command;
use std::alloc::{AllocError, Global};
use std::sync::Arc;

/// A command that was issued, the turn in which it was, before it, and its answer.
#[derive(Drop)]
pub struct Issued {
    pub turn: Turn,
    pub command: Command,
    pub answer: CommandAnswer,
}

/// Returns what is recorded of a command that was issued. The error is running out of memory.
pub fn recorded(
    alloc: Global,
    turn: &Turn,
    command: &Command,
    answer: &CommandAnswer,
) -> Result<Arc<Issued, Global>, AllocError>
    ensures { IfOk result (λ i. issued_of (arc_value i) ≡ record { turn = turn.now; command = command_of command.now; answer = answer_of answer.now }) }
{
    let issued = Issued {
        turn: turn.try_copy()?,
        command: copies::command(command)?,
        answer: copies::answer(answer)?,
    };
    Ok(Arc::new(alloc, issued)?)
}

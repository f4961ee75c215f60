//! What workers learn of their commands.
ghost use Rattle.std.specs.Prelude.{◌≡◌, true, is_some, IfOk, string_bytes};
ghost use Rattle.spec_sim.specs.NextSteps.{next};
ghost use Rattle.spec_sim.specs.Turns as turns;
ghost use Rattle.reconcile_turn.specs.Seen.{answer_of, answered_to, command_issued, data_of};

use reconcile_turn::{CommandAnswer, Turn};
use reply::Reply;
use std::alloc::AllocError;

/// Returns what a worker learns where its command is accepted with a reply. It takes no memory.
pub fn acceptance(reply: Reply) -> CommandAnswer
    ensures { answer_of result ≡ turns.accepted reply.code (data_of (string_bytes reply.text)) }
{
    CommandAnswer::Accepted {
        code: reply.code,
        text: reply.text,
    }
}

/// Returns a turn once its next command was answered. The error is running out of memory.
pub fn answered_turn(turn: &Turn, answer: CommandAnswer) -> Result<Turn, AllocError>
    requires { is_some (command_issued (next turn.now)) ≡ true }
    ensures { IfOk result (λ t. t ≡ answered_to (command_issued (next turn.now)) (answer_of answer) turn.now) }
{
    let mut turn = turn.try_copy()?;
    turn.answer(answer)?;
    Ok(turn)
}

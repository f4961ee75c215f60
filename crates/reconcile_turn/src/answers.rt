//! Answers to commands.
ghost use Rattle.std.specs.Prelude.{◌≡◌, IfOk};
ghost use Rattle.reconcile_turn.specs.Answers.{answers_of};
ghost use Rattle.spec_sim.specs.Turns.{is_accepted, is_refused};
ghost use Rattle.reconcile_turn.specs.Seen.{answer_of};

use std::alloc::{AllocError, Global};
use std::sync::Arc;

/// What is known of a command that was issued.
#[derive(Drop)]
pub enum CommandAnswer {
    /// It was accepted, with this status code and this body (RFC 9110, Status Codes).
    Accepted { code: u16, text: String },
    /// It was refused, with this status code.
    Refused { code: u16 },
    /// Whether it was carried out is not known.
    Lost,
}

impl CommandAnswer {
    /// Returns whether the command was accepted. It takes no memory.
    pub fn is_accepted(&self) -> bool
        ensures { result ≡ is_accepted (answer_of self.now) }
    {
        match self {
            CommandAnswer::Accepted { .. } => true,
            CommandAnswer::Refused { .. } => false,
            CommandAnswer::Lost => false,
        }
    }

    /// Returns whether the command was refused. It takes no memory.
    pub fn is_refused(&self) -> bool
        ensures { result ≡ is_refused (answer_of self.now) }
    {
        match self {
            CommandAnswer::Accepted { .. } => false,
            CommandAnswer::Refused { .. } => true,
            CommandAnswer::Lost => false,
        }
    }
}

/// Returns copies of answers, which share them. The error is running out of memory.
pub fn copies_of_answers(
    alloc: Global,
    answers: &[Arc<CommandAnswer, Global>],
) -> Result<Vec<Arc<CommandAnswer, Global>>, AllocError>
    ensures { IfOk result (λ v. answers_of v.items ≡ answers_of answers.now) }
{
    let mut made = Vec::with_capacity(alloc, answers.len())?;
    for answer in answers {
        made.push(Arc::try_clone(answer)?)?;
    }
    Ok(made)
}

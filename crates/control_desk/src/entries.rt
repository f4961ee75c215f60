//! What happens to a board. No value is ever made: it is what the proofs speak of.
use std::marker::Model;

/// A step of a board.
#[derive(Drop)]
pub struct WorkEntry {
    milliseconds: u64,
}

impl Model for WorkEntry {
    ghost use Rattle.control_desk.specs.StepCodes.{step_code};
    ghost use Rattle.control_desk.specs.Steps.{Step, tick};

    ghost Value = { Step };

    ghost coded = { step_code };

    ghost view = { λ e. tick e.milliseconds };
}

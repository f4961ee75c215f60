//! The states of a desk of work, and how they come of one another.
use crate::entries::WorkEntry;
use crate::states::WorkState;
use baton::Law;

/// A desk begins with nothing to be done and nothing handled, and takes in step after step. A key is taken only by a pass that has none, and given
/// back only by the pass that has it.
pub struct WorkLaw;

impl Law<WorkState> for WorkLaw {
    ghost use Rattle.control_desk.specs.Hands.{IsBegun, MayFollow};
    ghost use Rattle.control_desk.specs.Steps.{state_after};

    type Entry = WorkEntry;

    ghost opens = { IsBegun };

    ghost gives = { state_after };

    ghost follows = { MayFollow };
}

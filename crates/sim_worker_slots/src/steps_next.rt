//! Whether an action is what comes next in a turn.
ghost use Rattle.std.specs.Prelude.{◌≡◌};
ghost use Rattle.spec_sim.specs.Managers.{is_for};
ghost use Rattle.spec_sim.specs.NextSteps.{next};
ghost use Rattle.sim_steps.specs.Actions.{action_of};

use reconcile_turn::{NextStep, Turn};
use sim_steps::Action;

/// Returns whether an action is the step that comes next in a turn. It takes no memory.
pub(crate) fn is_next(turn: &Turn, action: Action) -> bool
    ensures { result ≡ is_for (action_of action) (next turn.now) }
{
    match (turn.next(), action) {
        (NextStep::Look(kind), Action::Look(looked)) => looked == kind,
        (NextStep::AskSatisfied, Action::AskSatisfied)
        | (NextStep::Read(_), Action::ReadLive)
        | (NextStep::Expect, Action::Expect)
        | (NextStep::Issue(_), Action::Issue(_))
        | (NextStep::Finish, Action::Finish) => true,
        _ => false,
    }
}

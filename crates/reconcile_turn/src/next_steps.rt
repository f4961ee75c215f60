//! What a worker does next in its turn.
ghost use Rattle.std.specs.Prelude.{◌≡◌, drop, map, option_map};
ghost use Rattle.spec_sim.specs.NextSteps.{issuing};
ghost use Rattle.reconcile_types.specs.Commands.{command_of, commands_of};
ghost use Rattle.reconcile_turn.specs.NextCommands.{IsCommandNext};

use object_keys::Key;
use reconcile_types::{Command, Plan};
use spec_api::kinds::Kind;

/// What a worker does next in its turn.
#[derive(Clone, Copy)]
pub enum NextStep<'a> {
    /// It looks at what is published of a kind.
    Look(Kind),
    /// It asks whether all pods that were expected have been seen.
    AskSatisfied,
    /// It reads what is there under a key.
    Read(&'a Key),
    /// What its commands make of pods is expected from now on.
    Expect,
    /// It issues a command.
    Issue(&'a Command),
    /// Its turn ends.
    Finish,
}

/// Returns what comes next where the plan is made, and nothing of it is still to be expected. It takes no memory.
pub fn next_command(plan: &Plan, issued: usize, is_accepted: bool) -> NextStep<'_>
    ensures { IsCommandNext result (issuing is_accepted (drop issued (commands_of plan.now))) }
{
    if !is_accepted {
        return NextStep::Finish;
    }
    match plan.commands.get(issued) {
        Some(command) => NextStep::Issue(command),
        None => NextStep::Finish,
    }
}

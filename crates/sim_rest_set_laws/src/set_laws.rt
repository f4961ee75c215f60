//! Laws of the first command of a ReplicaSet's plan.
ghost use Rattle.spec_client_go.specs.declared.controller.Controller.TheVariants as controller;
ghost use Rattle.sim_rest_command_laws.specs.FirstCommandLaws.{FirstCommandsOweOf};

/// The first command of a ReplicaSet's plan, once accepted, owes its key, where all else has come to rest: so the plan of a last turn had
/// none.
pub fn replica_sets_first_commands_owe()
    ensures { FirstCommandsOweOf controller.ReplicaSet }
{}

//! Laws of what a Deployment's plan commands first.
ghost use Rattle.spec_client_go.specs.declared.controller.Controller.TheVariants.{Deployment};
ghost use Rattle.sim_rest_command_laws.specs.FirstCommandLaws.{FirstCommandsOweOf};

/// The first command of a Deployment's plan, once accepted, owes its key, where all else has come to rest: so the plan of a last turn has
/// none.
pub fn deployments_first_commands_owe()
    ensures { FirstCommandsOweOf Deployment }
{}

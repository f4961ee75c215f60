//! Steps that lines ask for.
ghost use Rattle.std.specs.Prelude.{◌≡◌};
ghost use Rattle.spec_sim.specs.ControlPlaneStepLines.{step_asked};
ghost use Rattle.sim_steps.specs.PlaneSteps.{plane_step_of};

use crate::plane_steps::PlaneStep;
use crate::steps::Step;

/// Returns the step that a line asks for. A line of no form is answered as a request that says nothing is.
pub fn step_asked(line: &[u8]) -> PlaneStep<'_>
    ensures { plane_step_of result ≡ step_asked line.now }
{
    match PlaneStep::read(line) {
        Some(step) => step,
        None => PlaneStep::InCluster(Step::Request(&[])),
    }
}

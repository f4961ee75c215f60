//! How a simulated control plane was opened, and the steps that were taken since, which only proofs read.
ghost use Rattle.std.specs.Prelude.{◌≡◌};
ghost use Rattle.std.specs.Borrow.{ftrue};
ghost use Rattle.world.specs.Codes.{coded_taken};
ghost use Rattle.world.specs.Taken.{Taken};

use sim_steps::{Config, PlaneStep};
use std::marker::Model;

/// The sizes with which a control plane was opened, how its followers begin, and the steps that were taken since. It takes no memory.
#[derive(Drop)]
pub struct Trace {
    pub ghost taken: { Taken } by { coded_taken },
}

impl Model for Trace {
    ghost also_owns = { λ _. ftrue };
}

impl Trace {
    ghost use Rattle.std.specs.Prelude.{◌≡◌};
    ghost use Rattle.sim_steps.specs.PlaneSteps.{plane_step_of};
    ghost use Rattle.world.specs.Taken.{begun, followed};

    /// Returns the trace of what was opened so, and took no step.
    pub fn begun(config: &Config) -> Trace
        ensures { result.taken ≡ begun config.now.window config.now.workers config.now.initial }
    {
        Trace {}
    }

    /// Returns the trace with one step more.
    pub fn followed(&self, step: &PlaneStep<'_>) -> Trace
        ensures { result.taken ≡ followed self.now.taken (plane_step_of step.now) }
    {
        Trace {}
    }
}

//! A simulated control plane that answers lines.
ghost use Rattle.std.specs.Prelude.{◌≡◌, IfOk, OnOk, OnErr, None, option_map};
ghost use Rattle.spec_sim.specs.ControlPlaneStepLines.{step_asked};
ghost use Rattle.sim_service.specs.Ready.{IsReady};
ghost use Rattle.sim_service.specs.Refusals.{of_step};
ghost use Rattle.sim_steps.specs.PlaneSteps.{plane_step_of};
ghost use Rattle.sim_service.specs.SimulationStates.{told_by_stored, stored_after, first_text, first_stored};
ghost use Rattle.spec_sim.specs.ControlPlaneOutcomeTexts.{outcome_text};
ghost use Rattle.world.specs.Outcomes.{outcome_of};

use crate::telling::{ready, told};
use line_service::{LineService, no_memory_line};
use sim_steps::{Config, PlaneStep, Step, step_asked};
use std::alloc::{AllocError, Global};
use std::marker::Model;
use world::{Outcome, World};

/// Returns the line by which it is told what came of a step. Where it does not come made, it is written into an empty line with room for it.
fn line_of(line: Vec<u8>, outcome: Outcome) -> Vec<u8>
    requires ready { IsReady line }
    ensures { result.items ≡ outcome_text (outcome_of outcome) }
{
    match outcome {
        Outcome::InCluster(outcome) => told(line, outcome),
        Outcome::Work(told) => told.into_line(),
    }
}

/// Takes the step that a line asks for, and returns what is told of it. The error is running out of memory, and changes nothing: the
/// memory for what is told is there before the step is taken.
fn take(alloc: Global, world: &mut World, line: &[u8]) -> Result<Vec<u8>, AllocError>
    ensures text { IfOk result (λ l. l.items ≡ told_by_stored world.old (step_asked line.now)) }
    ensures world { OnOk result (world.new ≡ stored_after world.old (step_asked line.now)) }
    ensures err { OnErr result (world.new ≡ world.old) }
{
    let text = ready(alloc)?;
    let outcome = world.step(alloc, step_asked(line))?;
    Ok(line_of(text, outcome))
}

/// Takes the step that a line asks for in an opening world whose sizes nobody said, and returns that world and what is told. The error is
/// running out of memory.
fn first_step(alloc: Global, line: &[u8]) -> Result<(World, Vec<u8>), AllocError>
    ensures world { IfOk result (λ first. first.0 ≡ first_stored line.now None) }
    ensures text { IfOk result (λ first. first.1.items ≡ first_text line.now None) }
{
    let mut world = World::open(alloc, Config::default())?;
    let text = take(alloc, &mut world, line)?;
    Ok((world, text))
}

/// Returns what is told where there was no memory for a step, or none where no line is answered after it. It takes no memory.
fn refusal_of(step: PlaneStep<'_>) -> Option<&'static [u8]>
    ensures { option_map (λ text. text.now) result ≡ of_step (plane_step_of step.entry) }
{
    match step {
        PlaneStep::InCluster(Step::Request(_)) => Some(no_memory_line()),
        _ => None,
    }
}

/// A simulated control plane, which begins with the first line that is not empty.
#[derive(Drop)]
pub struct Simulation {
    world: Option<World>,
}

impl Model for Simulation {
    ghost use Rattle.std.specs.Prelude.{Option};
    ghost use Rattle.world.specs.WorldStates.{WorldState};
    ghost use Rattle.sim_service.specs.SimulationStates.{coded_simulation};

    ghost Value = { Option WorldState };

    ghost coded = { coded_simulation };

    ghost view = { λ s. s.world };
}

impl Simulation {
    ghost use Rattle.std.specs.Prelude.{◌≡◌, IfOk, OnOk, OnErr, Some, None};
    ghost use Rattle.sim_service.specs.SimulationStates.{first_text, first_stored};
    ghost use Rattle.spec_sim.specs.StepLines.{config_of_line};

    /// Returns a simulation that has not begun.
    pub fn new() -> Simulation
        ensures { result ≡ None }
    {
        Simulation { world: None }
    }

    /// Stores a world in the place of the one before, if there was one.
    fn store(&mut self, world: World)
        ensures { self.new ≡ Some world }
    {
        self.world = Some(world);
    }

    /// Begins with the first line, and returns what is told of it: nothing, where it is a configuration. The error is running out of
    /// memory, and changes nothing.
    fn begin(&mut self, alloc: Global, line: &[u8]) -> Result<Vec<u8>, AllocError>
        ensures text { IfOk result (λ l. l.items ≡ first_text line.now (config_of_line line.now)) }
        ensures world { OnOk result (self.new ≡ Some (first_stored line.now (config_of_line line.now))) }
        ensures err { OnErr result (self.new ≡ self.old) }
    {
        match Config::read(line) {
            Some(config) => {
                let world = World::open(alloc, config)?;
                self.store(world);
                Ok(Vec::new(alloc))
            }
            None => {
                let (world, text) = first_step(alloc, line)?;
                self.store(world);
                Ok(text)
            }
        }
    }
}

impl LineService for Simulation {
    ghost use Rattle.sim_service.specs.Refusals.{refusal};
    ghost use Rattle.sim_service.specs.SimulationStates.{reply_by_stored, next_stored};

    ghost reply = { reply_by_stored };

    ghost next = { next_stored };

    ghost refusal = { refusal };

    fn serve(&mut self, alloc: Global, line: &[u8]) -> Result<Vec<u8>, AllocError> {
        if line.is_empty() {
            return Ok(Vec::new(alloc));
        }
        match &mut self.world {
            Some(world) => take(alloc, world, line),
            None => self.begin(alloc, line),
        }
    }

    fn refused(&self, line: &[u8]) -> Option<&'static [u8]> {
        match Config::read(line) {
            Some(_) => None,
            None => refusal_of(step_asked(line)),
        }
    }
}

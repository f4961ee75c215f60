//! What happens in a simulated control plane.
ghost use Rattle.std.specs.Prelude.{◌≡◌, option_map};

use crate::actions::Action;
use crate::steps::Step;
use crate::words::{Words, is, kind, number};
use spec_api::kinds::Kind;

/// One atomic step of one actor, controllers among them.
#[derive(Clone, Copy)]
pub enum PlaneStep<'t> {
    /// A step of the cluster.
    InCluster(Step<'t>),
    /// The oldest published change of a kind is handled.
    Handle(Kind),
    /// A worker acts; the first is number 0.
    Works(u64, Action),
    /// So many milliseconds pass.
    Tick(u64),
}

impl<'t> PlaneStep<'t> {
    ghost use Rattle.spec_sim.specs.ControlPlanes as planes;
    ghost use Rattle.spec_sim.specs.ControlPlaneStepLines.{step_in_words, step_named, step_of_line, works_as};
    ghost use Rattle.spec_sim.specs.StepLines.{kind_of, number_of, words};
    ghost use Rattle.sim_steps.specs.Actions.{action_of};
    ghost use Rattle.sim_steps.specs.PlaneSteps.{plane_step_of, plane_step_by_words};
    ghost use Rattle.sim_steps.specs.Words.{words_seen};

    /// Returns the step in which the worker that a word numbers acts, if it is told how.
    fn works(worker: &[u8], action: Option<Action>) -> Option<PlaneStep<'t>>
        ensures { option_map plane_step_of result ≡ works_as worker.now (option_map action_of action) }
    {
        let worker = number(worker)?;
        let action = action?;
        Some(PlaneStep::Works(worker, action))
    }

    /// Returns the step in which the oldest change of a kind is handled.
    fn handle(word: &[u8]) -> Option<PlaneStep<'t>>
        ensures { option_map plane_step_of result ≡ option_map planes.handle (kind_of word.now) }
    {
        let kind = kind(word)?;
        Some(PlaneStep::Handle(kind))
    }

    /// Returns the step in which so many milliseconds pass.
    fn tick(word: &[u8]) -> Option<PlaneStep<'t>>
        ensures { option_map plane_step_of result ≡ option_map planes.tick (number_of word.now) }
    {
        let milliseconds = number(word)?;
        Some(PlaneStep::Tick(milliseconds))
    }

    /// Returns the step that a verb asks for with one more word.
    fn named(verb: &[u8], word: &[u8]) -> Option<PlaneStep<'t>>
        ensures { option_map plane_step_of result ≡ step_named verb.now word.now }
    {
        if is(verb, "handle") {
            PlaneStep::handle(word)
        } else if is(verb, "tick") {
            PlaneStep::tick(word)
        } else {
            PlaneStep::works(word, Action::named(verb))
        }
    }

    /// Returns the step that two or three words ask for.
    fn with_words(words: &Words<'_>) -> Option<PlaneStep<'t>>
        ensures { option_map plane_step_of result ≡ plane_step_by_words (words_seen words.now) }
    {
        match words.third {
            Some(third) => PlaneStep::works(words.second, Action::with(words.first, third)),
            None => PlaneStep::named(words.first, words.second),
        }
    }

    /// Returns the step that a text of two or three words asks for.
    fn in_words(text: &[u8]) -> Option<PlaneStep<'t>>
        ensures { option_map plane_step_of result ≡ step_in_words (words text.now) }
    {
        match Words::read(text) {
            Some(words) => PlaneStep::with_words(&words),
            None => None,
        }
    }

    /// Returns the step that a line asks for, which comes without its newline; nothing, where it has the form of none.
    pub fn read(line: &'t [u8]) -> Option<PlaneStep<'t>>
        ensures { option_map plane_step_of result ≡ step_of_line line.now }
    {
        match Step::read(line) {
            Some(step) => Some(PlaneStep::InCluster(step)),
            None => PlaneStep::in_words(line),
        }
    }
}

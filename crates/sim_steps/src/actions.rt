//! What workers do.
ghost use Rattle.std.specs.Prelude.{◌≡◌, option_map};
ghost use Rattle.spec_sim.specs.ControlPlaneStepLines.{action_named, action_with, delivery_named};
ghost use Rattle.sim_steps.specs.Actions.{action_of, delivery_of};

use crate::words::{is, kind};
use spec_api::kinds::Kind;

/// Whether a command reaches the server and its answer the worker.
#[derive(Clone, Copy)]
pub enum Delivery {
    /// Both do.
    Delivered,
    /// The server answers, and the answer is lost.
    AnswerLost,
    /// The command never reaches the server.
    Dropped,
}

/// What a worker does next.
#[derive(Clone, Copy)]
pub enum Action {
    /// Takes a key, and begins a turn.
    Take,
    /// Looks at what is published of a kind.
    Look(Kind),
    /// Asks whether all pods that were expected have been seen.
    AskSatisfied,
    /// Reads the next key live.
    ReadLive,
    /// Expects what its plan makes of pods.
    Expect,
    /// Issues the next command of its plan.
    Issue(Delivery),
    /// Ends its turn.
    Finish,
}

impl Delivery {
    /// Returns how a command is delivered that does not come through.
    fn named(word: &[u8]) -> Option<Delivery>
        ensures { option_map delivery_of result ≡ delivery_named word.now }
    {
        if is(word, "lost") {
            Some(Delivery::AnswerLost)
        } else if is(word, "dropped") {
            Some(Delivery::Dropped)
        } else {
            None
        }
    }
}

impl Action {
    ghost use Rattle.spec_sim.specs.Managers.{look, issue};
    ghost use Rattle.spec_sim.specs.StepLines.{kind_of};

    /// Returns the action that a verb alone asks for.
    pub(crate) fn named(verb: &[u8]) -> Option<Action>
        ensures { option_map action_of result ≡ action_named verb.now }
    {
        if is(verb, "take") {
            Some(Action::Take)
        } else if is(verb, "satisfied") {
            Some(Action::AskSatisfied)
        } else if is(verb, "read") {
            Some(Action::ReadLive)
        } else if is(verb, "expect") {
            Some(Action::Expect)
        } else if is(verb, "issue") {
            Some(Action::Issue(Delivery::Delivered))
        } else if is(verb, "finish") {
            Some(Action::Finish)
        } else {
            None
        }
    }

    /// Returns the look at a kind that a word names.
    fn look(word: &[u8]) -> Option<Action>
        ensures { option_map action_of result ≡ option_map look (kind_of word.now) }
    {
        let kind = kind(word)?;
        Some(Action::Look(kind))
    }

    /// Returns the issue of a command that does not come through, as a word says.
    fn issue(word: &[u8]) -> Option<Action>
        ensures { option_map action_of result ≡ option_map issue (delivery_named word.now) }
    {
        let delivery = Delivery::named(word)?;
        Some(Action::Issue(delivery))
    }

    /// Returns the action that a verb asks for with one more word.
    pub(crate) fn with(verb: &[u8], word: &[u8]) -> Option<Action>
        ensures { option_map action_of result ≡ action_with verb.now word.now }
    {
        if is(verb, "look") {
            Action::look(word)
        } else if is(verb, "issue") {
            Action::issue(word)
        } else {
            None
        }
    }
}

//! What happens in a simulated cluster.
ghost use Rattle.std.specs.Prelude.{◌≡◌, option_map, Some};
ghost use Rattle.spec_api.specs.Revisions.{revision_of};
ghost use Rattle.sim_steps.specs.Steps.{move_of};
ghost use Rattle.sim_steps.specs.Words.{words_seen, movement_of, step_by_words};

use crate::moves::Move;
use crate::words::{Words, cut, is, kind};
use metadata_values::revisions::read_revision;
use spec_api::kinds::Kind;

/// One atomic step of one actor.
#[derive(Clone, Copy)]
pub enum Step<'t> {
    /// The server reads a line, which asks or sets the moment.
    Request(&'t [u8]),
    /// The server compacts up to a revision.
    Compact(u64),
    /// A move of what follows a kind.
    Moves(Kind, Move),
    /// All followers begin anew.
    Restart,
}

/// Returns the revision that a text names.
fn revision(text: &[u8]) -> Option<u64>
    ensures { result ≡ revision_of text.now }
{
    match str::from_utf8(text) {
        Ok(text) => read_revision(text),
        Err(_) => None,
    }
}

/// Returns the move that the first of two or three words asks for, of what follows the kind that the second names.
fn movement(words: &Words<'_>) -> Option<Move>
    ensures { option_map move_of result ≡ movement_of (words_seen words.now) }
{
    match words.third {
        Some(amount) => Move::with(words.first, amount),
        None => Move::named(words.first),
    }
}

impl<'t> Step<'t> {
    ghost use Rattle.spec_sim.specs.Clusters.{compact};
    ghost use Rattle.spec_sim.specs.StepLines as lines;
    ghost use Rattle.spec_sim.specs.StepLines.{words, step_from, step_of_line};
    ghost use Rattle.sim_steps.specs.Steps.{step_of};

    /// Returns the step that a revision asks for, which is compacted up to.
    fn compact(text: &[u8]) -> Option<Step<'t>>
        ensures { option_map step_of result ≡ option_map compact (revision_of text.now) }
    {
        let revision = revision(text)?;
        Some(Step::Compact(revision))
    }

    /// Returns the step that two or three words ask for: a verb, the plural name of a kind, and how much.
    fn with_words(words: &Words<'_>) -> Option<Step<'t>>
        ensures { option_map step_of result ≡ step_by_words (words_seen words.now) }
    {
        let kind = kind(words.second)?;
        let movement = movement(words)?;
        Some(Step::Moves(kind, movement))
    }

    /// Returns the step that a text of two or three words asks for.
    fn moves(text: &[u8]) -> Option<Step<'t>>
        ensures { option_map step_of result ≡ lines.move_of (words text.now) }
    {
        match Words::read(text) {
            Some(words) => Step::with_words(&words),
            None => None,
        }
    }

    /// Returns the step that a line asks for, of which this stands before and after the first space.
    fn with_verb(line: &[u8], verb: &[u8], rest: &'t [u8]) -> Option<Step<'t>>
        ensures { option_map step_of result ≡ step_from line.now (Some (verb.now, rest.now)) }
    {
        if is(verb, "request") {
            Some(Step::Request(rest))
        } else if is(verb, "compact") {
            Step::compact(rest)
        } else {
            Step::moves(line)
        }
    }

    /// Returns the step that a line asks for, which comes without its newline; nothing, where it has the form of none.
    pub fn read(line: &'t [u8]) -> Option<Step<'t>>
        ensures { option_map step_of result ≡ step_of_line line.now }
    {
        match cut(line) {
            Some((verb, rest)) => Step::with_verb(line, verb, rest),
            None => {
                if is(line, "restart") {
                    Some(Step::Restart)
                } else {
                    None
                }
            }
        }
    }
}

//! What a follower does.
ghost use Rattle.std.specs.Prelude.{◌≡◌, option_map};

use crate::words::{is, number};

/// What a follower and its link do in one step.
#[derive(Clone, Copy)]
pub enum Move {
    /// The present list is answered and taken in.
    List,
    /// A watch is opened.
    Watch,
    /// A watch is opened that begins with all objects and a closing bookmark.
    Stream,
    /// The server writes the next lines, at most so many.
    Send(u64),
    /// The server writes a bookmark.
    SendBookmark,
    /// The next bytes are delivered, at most so many.
    Deliver(u64),
    /// All bytes are delivered.
    DeliverAll,
    /// The link is cut.
    Cut,
    /// What waits is published.
    Publish,
}

impl Move {
    ghost use Rattle.spec_sim.specs.StepLines.{move_named, send_of, deliver_of, move_with};
    ghost use Rattle.sim_steps.specs.Steps.{move_of};

    /// Returns the move that a verb alone asks for.
    pub(crate) fn named(verb: &[u8]) -> Option<Move>
        ensures { option_map move_of result ≡ move_named verb.now }
    {
        if is(verb, "list") {
            Some(Move::List)
        } else if is(verb, "watch") {
            Some(Move::Watch)
        } else if is(verb, "stream") {
            Some(Move::Stream)
        } else if is(verb, "cut") {
            Some(Move::Cut)
        } else if is(verb, "publish") {
            Some(Move::Publish)
        } else {
            None
        }
    }

    /// Returns the move by which so many lines are written, or a bookmark.
    fn send(amount: &[u8]) -> Option<Move>
        ensures { option_map move_of result ≡ send_of amount.now }
    {
        if is(amount, "bookmark") {
            return Some(Move::SendBookmark);
        }
        let count = number(amount)?;
        Some(Move::Send(count))
    }

    /// Returns the move by which so many bytes are delivered, or all.
    fn deliver(amount: &[u8]) -> Option<Move>
        ensures { option_map move_of result ≡ deliver_of amount.now }
    {
        if is(amount, "all") {
            return Some(Move::DeliverAll);
        }
        let count = number(amount)?;
        Some(Move::Deliver(count))
    }

    /// Returns the move that a verb asks for with how much.
    pub(crate) fn with(verb: &[u8], amount: &[u8]) -> Option<Move>
        ensures { option_map move_of result ≡ move_with verb.now amount.now }
    {
        if is(verb, "send") {
            Move::send(amount)
        } else if is(verb, "deliver") {
            Move::deliver(amount)
        } else {
            None
        }
    }
}

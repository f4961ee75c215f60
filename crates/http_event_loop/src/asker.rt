//! What asks a server.
ghost use Rattle.std.specs.Prelude.{◌≤◌};

use crate::turns::{Turns, TurnsTaken};
use std::sync::Mutex;
use std::sync::ledger::Ledger;

/// What a loop asks of a server, with the connections that it took and a count of the requests of theirs that it asked.
///
/// A connection asks once, as its request becomes whole. The counts say so by themselves: no more is asked than was taken. Each connection
/// takes one of the turns that all loops share, so that over all loops no more are taken than there are turns.
#[derive(Drop)]
pub struct Asker<'a, S, L: Ledger> {
    /// What the loop is to the server.
    pub site: S,
    /// The turns that are left.
    pub turns: &'a Mutex<Turns<L>>,
    /// The turns that the connections of the loop took.
    pub taken: TurnsTaken<L>,
    /// How many requests it asked.
    pub asked: u64,
    ghost within: { asked ≤ taken.count },
}

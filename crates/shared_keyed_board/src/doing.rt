//! What a call does.
use keyed_board::Outcome;

/// What a call does to the board that its pass holds.
#[derive(Clone, Copy)]
pub(crate) enum Doing {
    Nothing,
    Adds,
    Ticks(u64),
    ShutsDown,
}

/// What a call does to the board with one key.
#[derive(Clone, Copy)]
pub(crate) enum KeyDoing {
    Adds,
    AddsAfter(u64),
    Takes,
    Finishes(Outcome),
}

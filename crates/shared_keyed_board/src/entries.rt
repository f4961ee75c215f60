//! What happens to a board. No value is ever made: it is what the proofs speak of.
use keyed_board::{KeyedBoard, Outcome};
use keyed_queues::Named;
use std::collections::LinkedList;

/// A step of a board.
pub enum BoardStep<K> {
    Add(LinkedList<K>),
    AddAfter(K, u64),
    Take(K),
    Finish(K, Outcome),
    Tick(u64),
    ShutDown,
}

/// What a call did: its step, if it made one, and the board after it.
pub struct BoardEntry<K: Named> {
    pub step: Option<BoardStep<K>>,
    pub board: KeyedBoard<K>,
}

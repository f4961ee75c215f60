//! The states of a board, and how they come of one another.
use crate::entries::BoardEntry;
use baton::Law;
use keyed_board::KeyedBoard;
use keyed_queues::Named;
use std::marker::PhantomData;

/// A board begins with nothing to be done and takes in step after step. A key is taken only by a pass that has none, and given
/// back only by the pass that has it.
pub struct BoardLaw<K> {
    keys: PhantomData<K>,
}

impl<K: Named> Law<KeyedBoard<K>> for BoardLaw<K> {
    ghost use Rattle.shared_keyed_board.specs.Entries.{IsBegun, latest, Follows};

    type Entry = BoardEntry<K>;

    ghost opens = { IsBegun K.order K.says };

    ghost gives = { latest };

    ghost follows = { Follows K.order K.says };
}

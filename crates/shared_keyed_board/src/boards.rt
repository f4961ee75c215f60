//! A board that threads share.
use crate::board_law::BoardLaw;
use crate::entries::BoardEntry;
use baton::Baton;
use baton::views::PassView;
use keyed_board::KeyedBoard;
use keyed_queues::Named;
use wakeups::Bell;

/// The right to work at a board. What it has seen of the board's history, and what it made of it, its calls say.
pub type BoardPass<K> = crossbeam_queue::Pass<
    KeyedBoard<K>,
    PassView<KeyedBoard<K>, BoardEntry<K>>,
>;

/// A board that threads share: one call at a time has it.
pub struct SharedKeyedBoard<K: Named> {
    pub(crate) baton: Baton<KeyedBoard<K>, BoardLaw<K>>,
    /// Rings when a key may wait, and at the shut-down.
    pub(crate) keys: Bell,
    /// Rings when a key was delayed, and at the shut-down.
    pub(crate) delays: Bell,
}

impl<K: Named> Drop for SharedKeyedBoard<K> {
    // Called where one is dropped; a derived drop is proved anew at each such place.
    fn drop(self) {
        let SharedKeyedBoard {
            baton: _baton,
            keys: _keys,
            delays: _delays,
        } = self;
    }
}

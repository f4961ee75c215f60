//! A stop, heeded at the board.
use crate::under_way::UnderWay;
use keyed_queues::Named;
use shared_keyed_board::{BoardPass, SharedKeyedBoard};
use std::sync::Wait;
use std::time::Clock;
use wakeups::Stop;

/// How many milliseconds it waits for a stop at a time: so soon it sees that the run has ended for another reason.
const PIECE_MILLISECONDS: u64 = 250;

/// What ends a run once it is to stop, and shuts its board down, so that workers that wait for a key end.
#[derive(Drop)]
pub(crate) struct Stopper<'a, R, K: Named> {
    pub(crate) rt: &'a R,
    pub(crate) pass: BoardPass<K>,
    pub(crate) under_way: &'a UnderWay<'a>,
    /// Tells the run to stop.
    pub(crate) stop: &'a Stop,
}

impl<R: Wait + Clock, K: Named> Stopper<'_, R, K> {
    ghost use Rattle.std.specs.Prelude.{◌≡◌, ◌++◌, ◌∷◌, []};
    ghost use Rattle.keyed_board.specs.Steps.{shut_down};
    ghost use Rattle.shared_keyed_board.specs.Passes.{IsPassAt, key_in_hand, sight};

    /// Waits until the run is to stop, or has ended.
    fn await_end(&self) {
        for _ in self.rt.forever() {
            if self.under_way.check().is_err() {
                return;
            }
            if self.stop.rest(self.rt, PIECE_MILLISECONDS) {
                self.under_way.end();
                return;
            }
        }
    }

    /// Waits for the end of the run, and shuts the board down.
    pub(crate) fn run(&mut self, board: &SharedKeyedBoard<K>)
        requires { IsPassAt board.now self.old.pass }
        ensures pass { IsPassAt board.now self.new.pass }
        ensures key { key_in_hand K.says self.new.pass ≡ key_in_hand K.says self.old.pass }
        ensures shuts { (sight K.says self.new.pass).made ≡ (sight K.says self.old.pass).made ++ shut_down ∷ [] }
    {
        self.await_end();
        board.shut_down(self.rt, &mut self.pass);
    }
}

//! Time that passes at the board.
use crate::under_way::UnderWay;
use keyed_queues::Named;
use shared_keyed_board::{BoardPass, SharedKeyedBoard};
use std::sync::Wait;
use std::time::Clock;
use tcp_client::StoppableClock;

/// How many milliseconds are waited for memory.
const PAUSE_MILLISECONDS: u64 = 50;

/// What lets time pass at the board, as a clock shows it: it sleeps until the next key comes due.
#[derive(Drop)]
pub(crate) struct Ticker<'a, R, K: Named> {
    pub(crate) rt: &'a R,
    pub(crate) pass: BoardPass<K>,
    pub(crate) under_way: &'a UnderWay<'a>,
    pub(crate) clock: StoppableClock<'a, R>,
}

impl<R: Wait + Clock, K: Named> Ticker<'_, R, K> {
    ghost use Rattle.std.specs.Prelude.{◌≡◌};
    ghost use Rattle.shared_keyed_board.specs.Passes.{IsPassAt, key_in_hand, sight};
    ghost use Rattle.controller_runtime.specs.Reconciled.{OnlyTicks};

    /// Lets time pass, as the clock shows it, and sleeps until the next key comes due; returns whether the board is shut down, or is about to be. Where
    /// memory runs out no time passes: it pauses instead, and does not sleep, since the board would count that from a moment that is long over.
    fn tick(&mut self, board: &SharedKeyedBoard<K>) -> bool
        requires { IsPassAt board.now self.old.pass }
        ensures pass { IsPassAt board.now self.new.pass }
        ensures key { key_in_hand K.says self.new.pass ≡ key_in_hand K.says self.old.pass }
        ensures ticks { OnlyTicks (sight K.says self.old.pass) (sight K.says self.new.pass) }
    {
        let now = self.clock.milliseconds();
        match board.tick(self.rt, &mut self.pass, now) {
            Ok(()) => board.rest_until_due(self.rt, &mut self.pass),
            Err(_) => self.under_way.rest(self.rt, PAUSE_MILLISECONDS).is_err(),
        }
    }

    /// Lets time pass until the board is shut down, or the run is over.
    pub(crate) fn run(&mut self, board: &SharedKeyedBoard<K>)
        requires { IsPassAt board.now self.old.pass }
        ensures pass { IsPassAt board.now self.new.pass }
        ensures key { key_in_hand K.says self.new.pass ≡ key_in_hand K.says self.old.pass }
        ensures ticks { OnlyTicks (sight K.says self.old.pass) (sight K.says self.new.pass) }
    {
        for _ in self.rt.forever() {
            if self.tick(board) {
                return;
            }
        }
    }
}

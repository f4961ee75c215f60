//! The threads of a run.
use crate::following::KindFollower;
use crate::stopping::Stopper;
use crate::ticking::Ticker;
use crate::working::Worker;
use api_client::Api;
use keyed_queues::Named;
use reconciler::Reconciler;
use shared_keyed_board::{BoardPass, SharedKeyedBoard};
use std::sync::Wait;
use std::time::Clock;

/// What one thread of a run does.
#[derive(Drop)]
pub(crate) enum RunThread<'a, R: Wait, C, K: Named, A: Drop> {
    /// It follows a kind.
    Follows(KindFollower<'a, R, C, K, A>),
    /// It takes one key after another.
    Works(Worker<'a, R, C, K, A>),
    /// It lets time pass.
    Ticks(Ticker<'a, R, K>),
    /// It waits for the stop.
    Stops(Stopper<'a, R, K>),
}

impl<R: Wait + Clock, C: Reconciler<K>, K: Named, A: Api + Drop> RunThread<'_, R, C, K, A> {
    ghost use Rattle.std.specs.Prelude.{◌≡◌};
    ghost use Rattle.controller_runtime.specs.Runs.{IsBack};
    ghost use Rattle.controller_runtime.specs.Threads.{IsReady, pass_in};

    /// Does its work until the run is over. Its pass is then back, with no key in its hand.
    pub(crate) fn run(&mut self, board: &SharedKeyedBoard<K>)
        requires { IsReady C.owes C.ends K.says board.now self.old }
        ensures { IsBack C.owes C.ends K.says board.now (pass_in self.new) }
    {
        match self {
            RunThread::Follows(follower) => follower.run(),
            RunThread::Works(worker) => worker.run(board),
            RunThread::Ticks(ticker) => ticker.run(board),
            RunThread::Stops(stopper) => stopper.run(board),
        }
    }

    /// Returns its pass.
    pub(crate) fn into_pass(self) -> BoardPass<K>
        ensures { result ≡ pass_in self.entry }
    {
        match self {
            RunThread::Follows(follower) => follower.handler.into_pass(),
            RunThread::Works(worker) => worker.pass,
            RunThread::Ticks(ticker) => ticker.pass,
            RunThread::Stops(stopper) => stopper.pass,
        }
    }
}

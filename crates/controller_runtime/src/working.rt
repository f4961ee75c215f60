//! A worker.
use crate::means::Means;
use crate::turning::work;
use api_client::Api;
use keyed_queues::Named;
use reconciler::Reconciler;
use shared_keyed_board::{BoardPass, SharedKeyedBoard};
use std::sync::Wait;
use std::time::Clock;

/// A worker at the board that all share. While it reconciles a key, nobody else has that key.
#[derive(Drop)]
pub(crate) struct Worker<'a, R, C, K: Named, A: Drop> {
    pub(crate) pass: BoardPass<K>,
    pub(crate) means: Means<'a, R, C, A>,
}

impl<R: Wait + Clock, C: Reconciler<K>, K: Named, A: Api + Drop> Worker<'_, R, C, K, A> {
    ghost use Rattle.controller_runtime.specs.Runs.{IsAtWork, IsBack};

    /// Works until the board is shut down, once each kind has published its first list.
    pub(crate) fn run(&mut self, board: &SharedKeyedBoard<K>)
        requires { IsAtWork C.owes C.ends K.says board.now self.old.pass }
        ensures { IsBack C.owes C.ends K.says board.now self.new.pass }
    {
        if let Ok(listed) = self.means.under_way.await_lists(self.means.rt) {
            let _ = work(board, &mut self.pass, &mut self.means, &listed);
        }
    }
}

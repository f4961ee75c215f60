//! Threads that are started, and joined.
ghost use Rattle.std.specs.Prelude.{◌≡◌, ◌≤◌, ◌+◌, All, vec_len};
ghost use Rattle.std.specs.Vec.{vec_capacity};
ghost use Rattle.controller_runtime.specs.Runs.{IsBack};
ghost use Rattle.controller_runtime.specs.Threads.{IsReady, HasEnded, StopsLast};

use crate::members::RunThread;
use api_client::Api;
use keyed_queues::Named;
use reconciler::Reconciler;
use shared_keyed_board::{BoardPass, SharedKeyedBoard};
use std::sync::Wait;
use std::thread::{Threads, for_each_mut};
use std::time::Clock;

/// Has each of some threads do its work until the run is over, and joins them.
fn run_each<R, K, C, A>(
    rt: &R,
    board: &SharedKeyedBoard<K>,
    threads: &mut [RunThread<'_, R, C, K, A>],
)
where
    R: Threads + Wait + Clock + Sync,
    K: Named + Send,
    C: Reconciler<K> + Sync,
    A: Api + Send + Drop,
    requires { All (IsReady C.owes C.ends K.says board.now) threads.old }
    ensures { All (HasEnded C.owes C.ends K.says board.now) threads.new }
{
    let at_once = threads.len().max(1);
    for_each_mut(
        rt,
        threads,
        at_once,
        &|_, thread: &mut RunThread<'_, R, C, K, A>|
            requires { IsReady C.owes C.ends K.says board.now thread.now }
            ensures { HasEnded C.owes C.ends K.says board.entry.now thread.exit.now }
        {
            thread.run(board);
        },
    );
}

/// Has each thread do its work until the run is over, and joins them. The caller's own thread does that of the last one, which so waits for the stop
/// also where the system gives too few threads; what was to be done in one that it refuses begins once the run is over, and ends at once.
pub(crate) fn run_all<R, K, C, A>(
    rt: &R,
    board: &SharedKeyedBoard<K>,
    threads: &mut Vec<RunThread<'_, R, C, K, A>>,
)
where
    R: Threads + Wait + Clock + Sync,
    K: Named + Send,
    C: Reconciler<K> + Sync,
    A: Api + Send + Drop,
    requires ready { All (IsReady C.owes C.ends K.says board.now) threads.old.items }
    requires last { StopsLast threads.old.items }
    ensures ended { All (HasEnded C.owes C.ends K.says board.now) threads.new.items }
    ensures count { vec_len threads.new ≡ vec_len threads.old }
{
    run_each(rt, board, threads.as_mut_slice());
}

/// Adds the passes of threads that have ended to others.
pub(crate) fn take_back<R: Wait + Clock, K: Named, C: Reconciler<K>, A: Api + Drop>(
    board: &SharedKeyedBoard<K>,
    passes: &mut Vec<BoardPass<K>>,
    threads: Vec<RunThread<'_, R, C, K, A>>,
)
    requires ended { All (HasEnded C.owes C.ends K.says board.now) threads.items }
    requires passes { All (IsBack C.owes C.ends K.says board.now) passes.old.items }
    requires room { vec_len passes.old + vec_len threads ≤ vec_capacity passes.old }
    ensures back { All (IsBack C.owes C.ends K.says board.now) passes.new.items }
    ensures count { vec_len passes.new ≡ vec_len passes.old + vec_len threads.entry }
{
    let mut threads = threads;
    while let Some(thread) = threads.pop() {
        passes.push_reserved(thread.into_pass());
    }
}

//! Runs at boards of their own.
ghost use Rattle.std.specs.Prelude.{◌<◌, ◌^◌, vec_len};

use crate::followed::Followed;
use crate::running::{Ended, OTHER_THREADS, run_until_over};
use api_client::Api;
use keyed_queues::Named;
use reconciler::Reconciler;
use shared_keyed_board::SharedKeyedBoard;
use std::alloc::{AllocError, Global};
use std::sync::Wait;
use std::thread::Threads;
use std::time::Clock;
use wakeups::Stop;

/// Runs a controller, as `run_workers` does, and has the run's end stop what the caller made for it alone.
pub(crate) fn run_at_own_board<R, K, C, A>(
    rt: &R,
    alloc: Global,
    controller: &C,
    followed: Vec<Followed<A>>,
    asking: Vec<A>,
    stop: &Stop,
    over: &Stop,
) -> Result<Ended, AllocError>
where
    R: Threads + Wait + Clock + Sync,
    K: Named + Send,
    C: Reconciler<K> + Sync,
    A: Api + Send + Drop,
    requires { vec_len asking < 2 ^ 16 }
{
    let (board, passes) = SharedKeyedBoard::open(alloc, asking.len() + OTHER_THREADS)?;
    let (ended, _passes) = run_until_over(
        rt, alloc, controller, followed, asking, stop, over, &board, passes,
    )?;
    Ok(ended)
}

/// Runs a controller until it is to stop, or another server answers than before, and joins all threads: one for each kind that is followed, which
/// adds the keys that its changes owe; the workers, one for each way to ask, which reconcile one key after another once each kind has been listed;
/// one that lets time pass, for keys that are to be looked at again; and the caller's own, which waits for the stop. What was to be done in a thread that
/// the system refuses is not done until the run ends (`run_at` says what that costs). A kind that is named twice is followed once, as it is first named.
///
/// A key is in one worker's hands at a time, and is queued once however often it is owed. One that is owed while it is in a worker's hands is
/// reconciled again after it; one whose reconcile failed after 5 milliseconds, and twice as long after each failure that follows, up to 1,000
/// seconds.
///
/// The error is running out of memory before a thread was started; where it runs out later, who needs it waits. No clause says that a thread starts
/// or gets on.
pub fn run_workers<R, K, C, A>(
    rt: &R,
    alloc: Global,
    controller: &C,
    followed: Vec<Followed<A>>,
    asking: Vec<A>,
    stop: &Stop,
) -> Result<Ended, AllocError>
where
    R: Threads + Wait + Clock + Sync,
    K: Named + Send,
    C: Reconciler<K> + Sync,
    A: Api + Send + Drop,
    requires { vec_len asking < 2 ^ 16 }
{
    let over = Stop::new();
    run_at_own_board::<R, K, C, A>(rt, alloc, controller, followed, asking, stop, &over)
}

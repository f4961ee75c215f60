//! How the members of a row run, each on a thread of its own, and are joined.
ghost use Rattle.std.specs.Thread.{IsSend, IsSync};
ghost use Rattle.http_event_loop.specs.Rows.{RunsEach};

use crate::fault::ListenFault;
use crate::runner::Runner;
use std::sync::Wait;
use std::thread::{Threads, join_mut};
use std::time::Clock;

/// Runs the first on a thread of its own, and meanwhile the others.
#[cycle(row)]
fn run_beside<R, H>(rt: &R, first: &mut H, rest: &mut [H]) -> Result<(), ListenFault>
where
    R: Threads + Wait + Clock + Sync,
    H: Runner + Send,
    ensures own { H.step first.old first.new }
    ensures others { RunsEach H.step rest.old rest.new }
{
    let mut here = || -> Result<(), ListenFault>
        ensures { H.step first.entry.now first.exit.now }
    { first.run(rt) };
    let mut there = || -> Result<(), ListenFault>
        requires { IsSync R.row × IsSend H.row }
        ensures { RunsEach H.step rest.entry.now rest.exit.now }
    { run_row(rt, rest) };
    let (own, others) = join_mut(rt, &mut here, &mut there);
    own?;
    others
}

/// Runs each of a row on a thread of its own, the last of them on this one, and joins the threads. One for which the system makes no thread
/// runs once the others have ended. The fault is that of the first that has one.
///
/// No clause says that two of them run at one time.
#[cycle(row)]
pub fn run_row<R, H>(rt: &R, row: &mut [H]) -> Result<(), ListenFault>
where
    R: Threads + Wait + Clock + Sync,
    H: Runner + Send,
    ensures { RunsEach H.step row.old row.new }
{
    let Some((first, rest)) = row.split_first_mut() else {
        return Ok(());
    };
    if rest.is_empty() {
        return first.run(rt);
    }
    run_beside(rt, first, rest)
}

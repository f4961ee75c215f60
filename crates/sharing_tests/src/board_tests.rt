//! Threads that work at one board.
ghost use Rattle.std.specs.Prelude.{All, IfOk, IfSome};
ghost use Rattle.control_desk.specs.Desks.{IsNewAt, IsPassAt};

use crate::working::work;
use control_desk::{ControlDesk, WorkPass};
use std::alloc::{AllocError, Global};
use std::sync::Wait;
use std::sync::atomic::{AtomicU64, Ordering};
use std::thread;
use std::thread::Threads;

/// Works in a thread for each pass, and counts the keys that all handle.
fn work_in_threads<R: Threads + Wait + Sync>(
    rt: &R,
    alloc: Global,
    desk: &ControlDesk,
    passes: Vec<WorkPass>,
    handled: &AtomicU64,
) -> Result<Vec<WorkPass>, AllocError>
    requires { All (IsNewAt desk.now) passes.items }
    ensures { IfOk result (λ v. All (IsPassAt desk.now) v.items) }
{
    let workers = AtomicU64::new(0);
    thread::map_vec(
        rt,
        passes,
        &|pass: WorkPass| -> WorkPass
            requires { IsNewAt desk.now pass }
            ensures { IsPassAt desk.entry.now result }
        {
            let number = workers.fetch_add(1, Ordering::SeqCst);
            work(rt, alloc, desk, pass, number, handled)
        },
    )
}

/// Lets the pass of each thread meet the next one, and returns the last one. It answers nothing where there is no thread.
fn meet_in_turn(desk: &ControlDesk, mut passes: Vec<WorkPass>) -> Option<WorkPass>
    requires { All (IsPassAt desk.now) passes.items }
    ensures { IfSome result (IsPassAt desk.now) }
{
    let mut last = passes.pop()?;
    while let Some(mut next) = passes.pop() {
        desk.meet(&mut last, &mut next);
        last = next;
    }
    Some(last)
}

/// Has eight threads work, and returns how many keys they handled, and whether the time goes on then.
fn worked<R: Threads + Wait + Sync>(rt: &R, alloc: Global) -> Result<(u64, bool), AllocError> {
    let handled = AtomicU64::new(0);
    let (desk, passes) = ControlDesk::open(alloc, 8)?;
    let passes = work_in_threads(rt, alloc, &desk, passes, &handled)?;
    let goes_on = match meet_in_turn(&desk, passes) {
        Some(mut last) => desk.tick(rt, &mut last, 1)?,
        None => false,
    };
    Ok((handled.load(Ordering::SeqCst), goes_on))
}

#[test]
fn eight_threads_share_a_thousand_keys(rt: HostRuntime) -> Result<(), AllocError> {
    let seen = worked(&rt, rt.alloc())?;
    assert_eq!(rt; seen, (1000, true));
    Ok(())
}

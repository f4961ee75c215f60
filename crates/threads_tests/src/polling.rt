//! Waiting for a condition.
use std::sync::atomic::{AtomicU64, Ordering};
use std::thread;
use std::time::{Clock, Duration};
use wakeups::Stop;

/// How often a condition is looked at before it is given up: for some six seconds, where the looks are short. It is a number of looks and
/// not a time, since on a busy machine each look and each pause takes longer, as does what is waited for.
const MOST_LOOKS: u64 = 1000;

/// How many milliseconds there are between two looks.
const PAUSE_MILLISECONDS: u64 = 5;

/// Waits until a condition holds, and returns whether it does: false where it was given up.
pub fn wait_until<R: Clock, F: FnMut() -> bool>(rt: &R, mut holds: F) -> bool
    requires { F.IsAlwaysCallable holds }
{
    for _ in 0..MOST_LOOKS {
        if holds() {
            return true;
        }
        thread::sleep(rt, Duration::from_millis(PAUSE_MILLISECONDS));
    }
    false
}

/// Waits until a count is as high as wanted, and returns whether it is: false where it was given up, or all is to stop before that.
pub fn wait_for_count<R: Clock>(rt: &R, stop: &Stop, count: &AtomicU64, least: u64) -> bool {
    let is_over = || least <= count.load(Ordering::SeqCst) || stop.is_stopped();
    wait_until(rt, is_over) && least <= count.load(Ordering::SeqCst)
}

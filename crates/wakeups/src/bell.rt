//! A count of events that threads wait for.
ghost use Rattle.std.specs.Prelude.{◌≢◌, ◌≤◌, IfSome};
ghost use Rattle.std.specs.Duration.{as_nanos};

use std::sync::Wait;
use std::sync::atomic::{AtomicU64, Ordering};
use std::time::{Clock, Duration, Instant};

/// A bell that any thread rings after a write, and that wakes all who wait.
///
/// No ring is lost on who reads the count before it looks for what was written, and waits past that count. All atomic steps
/// have one order, in which a ring counts before it reads whether anybody waits, and who waits says so before it compares the
/// count.
///
/// - The ring reads that nobody waits: whoever comes later compares the count after it, and does not fall asleep.
/// - The ring reads that somebody waits: it wakes all who sleep. Who was about to sleep does not, since the system compares
///   the count once more as it puts a thread to sleep.
///
/// No clause says any of this, since contracts say nothing of what another thread does meanwhile, nor that the count grows;
/// tests show it. Who sleeps takes no processor.
#[derive(Drop)]
pub struct Bell {
    rings: AtomicU64,
    waiters: AtomicU64,
}

impl Bell {
    /// Returns a bell that was never rung, and for which nobody waits.
    pub const fn new() -> Bell {
        Bell {
            rings: AtomicU64::new(0),
            waiters: AtomicU64::new(0),
        }
    }

    /// Returns how often the bell was rung. It is to be read before the look that precedes a wait.
    pub fn count(&self) -> u64 {
        self.rings.load(Ordering::SeqCst)
    }

    /// Counts a ring and wakes all who wait. It waits for nobody; where nobody waits it costs one addition to an atomic and
    /// one read of another, and no call of the system.
    pub fn ring(&self) {
        self.rings.fetch_add(1, Ordering::SeqCst);
        if self.waiters.load(Ordering::SeqCst) != 0 {
            self.rings.wake_all();
        }
    }

    /// Waits until the count is no longer the one that was seen, and returns the count then; `None` where so many milliseconds
    /// have passed without a ring. Where the clock cannot be read it may return `None` early.
    pub fn wait<R: Wait + Clock>(&self, rt: &R, seen: u64, millis: u64) -> Option<u64>
        ensures { IfSome result (λ count. count ≢ seen) }
    {
        self.waiters.fetch_add(1, Ordering::SeqCst);
        let rung = self.sleep_past(rt, seen, Duration::from_millis(millis));
        self.waiters.fetch_sub(1, Ordering::SeqCst);
        rung
    }

    /// Sleeps until the count is no longer the one that was seen, or the time is over. Sleeps may end for no reason, and the
    /// system compares the lower half of the count alone, so the count is looked at after each.
    fn sleep_past<R: Wait + Clock>(&self, rt: &R, seen: u64, time: Duration) -> Option<u64>
        ensures { IfSome result (λ count. count ≢ seen) }
    {
        let start = Instant::now(rt).ok();
        let mut left = time;
        for _ in rt.forever() {
            let count = self.count();
            if count != seen {
                return Some(count);
            }
            if left.is_zero() {
                return None;
            }
            self.rings
                .park_timeout(rt, (seen & 0xffff_ffff) as u32, left);
            left = time_left(rt, start, time);
        }
        unreachable!()
    }
}

impl Default for Bell {
    fn default() -> Bell {
        Bell::new()
    }
}

/// Returns how much of a time is left that began at an instant, and none where the clock cannot be read.
fn time_left<C: Clock>(clock: &C, start: Option<Instant>, time: Duration) -> Duration
    ensures { as_nanos result ≤ as_nanos time }
{
    match (start, Instant::now(clock)) {
        (Some(start), Ok(now)) => time.saturating_sub(now.saturating_duration_since(start)),
        _ => Duration::ZERO,
    }
}

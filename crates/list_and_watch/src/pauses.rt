//! Pauses after failed tries.
ghost use Rattle.std.specs.Prelude.{◌≡◌, ◌≤◌};
ghost use Rattle.list_and_watch.specs.Pauses.{pause_after, failures_at, failed};

/// How many failures in a row are counted: so many make the longest pause.
const MOST_FAILURES: u32 = 6;

/// The longest pause, in milliseconds.
const LONGEST_PAUSE: u64 = 30_000;

/// After how many milliseconds a failure no longer counts.
const COUNTED_MILLISECONDS: u64 = 120_000;

/// How many tries failed in a row, and when the last of them did, in milliseconds.
#[derive(Clone, Copy)]
pub struct Pauses {
    pub failures: u32,
    pub last: u64,
}

/// Returns the pause after some failures, in milliseconds.
fn pause_after(failures: u32) -> u64
    ensures { result ≡ pause_after failures }
{
    if failures < MOST_FAILURES {
        LONGEST_PAUSE.min(800 * 2u64.pow(failures))
    } else {
        LONGEST_PAUSE
    }
}

impl Pauses {
    /// Returns how many failures count at a moment.
    fn failures_at(&self, now: u64) -> u32
        ensures { result ≡ failures_at now self.now }
    {
        if now.saturating_sub(self.last) > COUNTED_MILLISECONDS {
            0
        } else {
            self.failures
        }
    }

    /// Counts a try that failed at a moment, and returns how long is to be waited before the next, in milliseconds: 0.8 s, twice as long
    /// after each further failure, and at most 30 s. Where none failed for 2 minutes it begins again.
    pub fn on_failed(&mut self, now: u64) -> u64
        ensures after { self.new ≡ failed now self.old }
        ensures pause { result ≡ pause_after (failures_at now self.old) }
    {
        let before = self.failures_at(now);
        let failures = if before < MOST_FAILURES {
            before + 1
        } else {
            MOST_FAILURES
        };
        *self = Pauses {
            failures,
            last: now,
        };
        pause_after(before)
    }
}

//! What who delays a key, and who lets time pass at the board, tell one another.
use std::sync::Wait;
use std::sync::atomic::{AtomicU64, Ordering};
use std::time::Clock;
use wakeups::{Bell, Stop};

/// How many milliseconds who delays a key waits at most for time to pass.
const LONGEST_WAIT: u64 = 1000;

/// The bells between who delays keys, and who lets time pass at the board and sleeps until something is due there.
///
/// A delay counts from the board's time, which stands still during that sleep. So who delays a key calls `catch_up` before, and
/// `note_delay` after:
///
/// - No key comes sooner than its delay allows, but for what a whole millisecond cuts off. Who lets time pass reads how often it was
///   asked before it looks at the clock, and tells that number after the tick: so `catch_up` ends after a tick to a moment of the clock
///   at which it had begun, and the delay counts from there or later.
/// - No key comes later than its delay. Who lets time pass reads how often it was asked before it looks what is due next, and sleeps
///   while that number stays. It finds a key that was delayed before that look; one that was delayed after it is told of by a ring that
///   the number does not have yet.
///
/// No clause says any of this, since contracts say nothing of clocks, nor of what another thread does meanwhile; tests show it.
#[derive(Drop)]
pub struct TimeSignals {
    /// Rings when time is to pass, and when a key was delayed.
    asked: Bell,
    /// How often `asked` had rung before the last tick.
    answered: AtomicU64,
    /// Rings after a tick.
    passed: Bell,
}

impl TimeSignals {
    /// Returns the signals of a board at which no time was asked for.
    pub const fn new() -> TimeSignals {
        TimeSignals {
            asked: Bell::new(),
            answered: AtomicU64::new(0),
            passed: Bell::new(),
        }
    }

    /// Has time pass at the board up to now: wakes who lets it pass, and waits until it has, for a second at most, or until all is to stop.
    pub fn catch_up<R: Wait + Clock>(&self, rt: &R, stop: &Stop) {
        self.asked.ring();
        let asked = self.asked.count();
        for _ in rt.forever() {
            let seen = self.passed.count();
            if asked <= self.answered.load(Ordering::SeqCst) || stop.is_stopped() {
                return;
            }
            if self.passed.wait(rt, seen, LONGEST_WAIT).is_none() {
                return;
            }
        }
        unreachable!()
    }

    /// Wakes who lets time pass: a key was delayed, which may come due before it would wake by itself.
    pub fn note_delay(&self) {
        self.asked.ring();
    }

    /// Returns how often time was asked for, or a key delayed: who lets time pass reads it before it looks at the clock and at the board.
    pub fn count_asked(&self) -> u64 {
        self.asked.count()
    }

    /// Notes that time has passed up to a moment of the clock which was looked at after it was asked for so often.
    pub fn note_passed(&self, asked: u64) {
        self.answered.store(asked, Ordering::SeqCst);
        self.passed.ring();
    }

    /// Sleeps for so many milliseconds, or until time is asked for, or a key delayed, more often than was seen.
    pub fn sleep<R: Wait + Clock>(&self, rt: &R, seen: u64, milliseconds: u64) {
        let _ = self.asked.wait(rt, seen, milliseconds);
    }

    /// Wakes all who wait by these bells, as all is to stop.
    pub fn wake_all(&self) {
        self.asked.ring();
        self.passed.ring();
    }
}

impl Default for TimeSignals {
    fn default() -> TimeSignals {
        TimeSignals::new()
    }
}

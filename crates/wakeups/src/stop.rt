//! A stop that threads wait for.
use crate::bell::Bell;
use std::sync::Wait;
use std::time::Clock;

/// Tells threads to stop, once and for all: who rests until then wakes at once.
///
/// No clause says that a thread sees it, since contracts say nothing of what another thread does meanwhile; tests show it.
#[derive(Drop)]
pub struct Stop {
    bell: Bell,
}

impl Stop {
    /// Returns a stop that was not asked for yet.
    pub const fn new() -> Stop {
        Stop { bell: Bell::new() }
    }

    /// Asks all threads to stop. It waits for nobody.
    pub fn stop(&self) {
        self.bell.ring();
    }

    /// Returns whether a stop was asked for.
    pub fn is_stopped(&self) -> bool {
        self.bell.count() != 0
    }

    /// Waits for so many milliseconds, or until a stop is asked for, and returns whether it was.
    pub fn rest<R: Wait + Clock>(&self, rt: &R, millis: u64) -> bool {
        self.bell.wait(rt, 0, millis).is_some()
    }
}

impl Default for Stop {
    fn default() -> Stop {
        Stop::new()
    }
}

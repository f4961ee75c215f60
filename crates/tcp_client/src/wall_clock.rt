//! The clock of the machine.
use list_and_watch::{Onward, Timer};
use metadata_values::stopwatch::Stopwatch;
use std::thread;
use std::time::{Clock, Duration, Instant};

/// The clock of the machine, and how long it went on since this was made: where it falls back, or shows no instant, no time passes, and
/// it is counted on from there. Who pauses by it sleeps, and always goes on.
#[derive(Drop)]
pub struct WallClock<'a, R> {
    rt: &'a R,
    stopwatch: Stopwatch,
}

impl<'a, R: Clock> WallClock<'a, R> {
    ghost use Rattle.std.specs.Prelude.{◌≡◌, ◌-◌, ◌/◌, ◌^◌, min};
    ghost use Rattle.metadata_values.specs.Stopwatches.{passed_in};
    ghost use Rattle.tcp_client.specs.Clocks.{LooksAgain, stopwatch_of};

    /// Returns a clock that begins now.
    pub fn new(rt: &'a R) -> WallClock<'a, R>
        ensures { passed_in (stopwatch_of result) ≡ 0 }
    {
        let mut stopwatch = Stopwatch::new();
        if let Ok(now) = Instant::now(rt) {
            stopwatch.see(now);
        }
        WallClock { rt, stopwatch }
    }

    /// Returns how many whole milliseconds the clock went on since this was made.
    pub fn milliseconds(&mut self) -> u64
        ensures looks { LooksAgain (stopwatch_of self.old) (stopwatch_of self.new) }
        ensures milliseconds { result ≡ min (passed_in (stopwatch_of self.new) / 1_000_000) (2 ^ 64 - 1) }
    {
        if let Ok(now) = Instant::now(self.rt) {
            self.stopwatch.see(now);
        }
        self.stopwatch.milliseconds()
    }
}

impl<R: Clock> Timer for WallClock<'_, R> {
    fn now(&mut self) -> u64 {
        self.milliseconds()
    }

    fn pause(&mut self, milliseconds: u64) -> Onward {
        thread::sleep(self.rt, Duration::from_millis(milliseconds));
        Onward::GoOn
    }
}

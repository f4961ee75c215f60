//! The clock of the machine, with pauses that a stop ends.
use crate::wall_clock::WallClock;
use list_and_watch::{Onward, Timer};
use std::sync::Wait;
use std::time::Clock;
use wakeups::Stop;

/// The clock of the machine, and how long it went on since this was made. Who pauses by it wakes when all is to stop.
#[derive(Drop)]
pub struct StoppableClock<'a, R> {
    rt: &'a R,
    stop: &'a Stop,
    clock: WallClock<'a, R>,
}

impl<'a, R: Clock> StoppableClock<'a, R> {
    ghost use Rattle.std.specs.Prelude.{◌≡◌, ◌-◌, ◌/◌, ◌^◌, min};
    ghost use Rattle.metadata_values.specs.Stopwatches.{passed_in};
    ghost use Rattle.tcp_client.specs.StoppedClocks.{stopwatch_at};
    ghost use Rattle.tcp_client.specs.Clocks.{LooksAgain};

    /// Returns a clock that begins now.
    pub fn new(rt: &'a R, stop: &'a Stop) -> StoppableClock<'a, R>
        ensures { passed_in (stopwatch_at result) ≡ 0 }
    {
        StoppableClock {
            rt,
            stop,
            clock: WallClock::new(rt),
        }
    }

    /// Returns how many milliseconds the clock went on since this was made: where it falls back, or shows no instant, none pass, and they are
    /// counted on from there.
    pub fn milliseconds(&mut self) -> u64
        ensures looks { LooksAgain (stopwatch_at self.old) (stopwatch_at self.new) }
        ensures milliseconds { result ≡ min (passed_in (stopwatch_at self.new) / 1_000_000) (2 ^ 64 - 1) }
    {
        self.clock.milliseconds()
    }
}

impl<R: Wait + Clock> Timer for StoppableClock<'_, R> {
    fn now(&mut self) -> u64 {
        self.milliseconds()
    }

    fn pause(&mut self, milliseconds: u64) -> Onward {
        if self.stop.rest(self.rt, milliseconds) {
            Onward::Stop
        } else {
            Onward::GoOn
        }
    }
}

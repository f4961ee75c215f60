//! Pauses between the runs of a controller.
use list_and_watch::{Onward, Pauses, Timer};
use std::sync::Wait;
use std::time::Clock;
use tcp_client::StoppableClock;
use wakeups::Stop;

/// How long a controller waits before it runs anew, as after a try that failed (`Pauses`): so a server that is found to be another one again and again
/// is not asked for everything several times a second.
#[derive(Drop)]
pub(crate) struct RunPauses<'a, R> {
    clock: StoppableClock<'a, R>,
    pauses: Pauses,
}

impl<'a, R: Wait + Clock> RunPauses<'a, R> {
    ghost use Rattle.controller_runtime.specs.Pausing.{CountsRun};

    /// Returns the pauses of a controller that has not run yet. A stop ends each.
    pub(crate) fn new(rt: &'a R, stop: &'a Stop) -> RunPauses<'a, R> {
        RunPauses {
            clock: StoppableClock::new(rt, stop),
            pauses: Pauses {
                failures: 0,
                last: 0,
            },
        }
    }

    /// Waits once a run has ended, and returns whether another is to begin: none is after a stop. The pause is 0.8 s, twice as long after each further
    /// run, and at most 30 s; where none ended for 2 minutes it begins again.
    pub(crate) fn rest(&mut self) -> Onward
        ensures { CountsRun self.old.pauses self.new.pauses }
    {
        let now = self.clock.milliseconds();
        let pause = self.pauses.on_failed(now);
        self.clock.pause(pause)
    }
}

//! A scenario in which nothing is done.
use crate::scenarios::Scenario;
use crate::scenes::Scene;
use std::sync::Wait;
use std::time::Clock;
use wakeups::Stop;

/// Waits until all threads are to stop, for so many milliseconds at most.
#[derive(Drop)]
pub struct Waiting<'a, R> {
    rt: &'a R,
    stop: &'a Stop,
    milliseconds: u64,
}

impl<'a, R> Waiting<'a, R> {
    /// Returns a scenario of a scene that waits for so many milliseconds at most.
    pub fn new(scene: &Scene<'a, R>, milliseconds: u64) -> Waiting<'a, R> {
        let signals = scene.signals;
        Waiting {
            rt: scene.rt,
            stop: &signals.stop,
            milliseconds,
        }
    }
}

impl<R: Wait + Clock> Scenario for Waiting<'_, R> {
    fn run(&mut self) -> bool {
        self.stop.rest(self.rt, self.milliseconds)
    }
}

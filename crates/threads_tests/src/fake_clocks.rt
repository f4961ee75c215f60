//! A clock that a test steps.
use std::io;
use std::sync::Wait;
use std::sync::atomic::{AtomicU64, Ordering};
use std::thread::Threads;
use std::time::{Clock, Duration};

/// A runtime whose clock stands still until a test steps it, as `FakeClock` of Kubernetes' `clock/testing`. Who sleeps does so by the clock of
/// the machine, so that a test can wait while its own clock stands still.
#[derive(Drop)]
pub struct FakeClock<R> {
    rt: R,
    milliseconds: AtomicU64,
}

impl<R> FakeClock<R> {
    /// Returns a clock that shows its start.
    pub fn new(rt: R) -> FakeClock<R> {
        FakeClock {
            rt,
            milliseconds: AtomicU64::new(0),
        }
    }

    /// Lets so many milliseconds pass at once.
    pub fn step(&self, milliseconds: u64) {
        self.milliseconds.fetch_add(milliseconds, Ordering::SeqCst);
    }
}

impl<R: Wait> Wait for FakeClock<R> {}

impl<R: Threads> Threads for FakeClock<R> {}

impl<R: Clock> Clock for FakeClock<R> {
    fn monotonic(&self) -> io::Result<Duration> {
        let milliseconds = self.milliseconds.load(Ordering::SeqCst);
        Ok(Duration::from_millis(milliseconds))
    }

    fn since_1970(&self) -> io::Result<Duration> {
        self.rt.since_1970()
    }

    fn sleep(&self, duration: Duration) {
        self.rt.sleep(duration)
    }
}

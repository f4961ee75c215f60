//! When a loop is.
use metadata_values::moment;
use metadata_values::moments::Moment;
use std::time::{Clock, Duration, Instant};

/// When a round of a loop is.
#[derive(Clone, Copy)]
pub(crate) struct Tick {
    /// By the clock that only goes on.
    pub(crate) now: Instant,
    /// The moment of what is written in the round.
    pub(crate) moment: Moment,
}

impl Tick {
    /// Returns when it is; where the clock shows no moment, with the one at which a session begins.
    pub(crate) fn now<C: Clock>(clock: &C) -> std::io::Result<Tick> {
        Ok(Tick {
            now: Instant::now(clock)?,
            moment: match moment(clock) {
                Some(moment) => moment,
                None => Moment::start(),
            },
        })
    }

    /// Returns whether so many milliseconds have passed since an instant.
    pub(crate) fn is_after(&self, since: Instant, millis: u64) -> bool {
        self.now.saturating_duration_since(since) >= Duration::from_millis(millis)
    }
}

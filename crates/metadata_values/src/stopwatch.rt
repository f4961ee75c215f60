//! How long a clock went on.
ghost use Rattle.std.specs.Prelude.{◌≡◌, option_map};
ghost use Rattle.std.specs.Time.{instant_nanos};
ghost use Rattle.core.specs.Duration.{as_nanos};
ghost use Rattle.metadata_values.specs.Stopwatches.{going};

use std::time::{Duration, Instant};

/// How long a clock went on, as it was seen now and then. Where it was seen to fall back nothing has passed, and it counts on from there.
#[derive(Clone, Copy)]
pub struct Stopwatch {
    seen: Option<Instant>,
    passed: Duration,
}

/// Returns how far a clock went on since it was seen, if it was.
fn going(seen: Option<Instant>, now: Instant) -> Duration
    ensures { as_nanos result ≡ going (option_map instant_nanos seen) (instant_nanos now) }
{
    match seen {
        Some(seen) => now.duration_since(seen),
        None => Duration::ZERO,
    }
}

impl Stopwatch {
    ghost use Rattle.std.specs.Prelude.{◌≡◌, ◌+◌, ◌-◌, ◌/◌, ◌^◌, min, None, Some};
    ghost use Rattle.std.specs.Time.{instant_nanos};
    ghost use Rattle.core.specs.Duration.{max_nanos};
    ghost use Rattle.metadata_values.specs.Stopwatches.{going, passed_in, seen_last};

    /// Returns a stopwatch that has seen no clock.
    pub fn new() -> Stopwatch
        ensures seen { seen_last result ≡ None }
        ensures passed { passed_in result ≡ 0 }
    {
        Stopwatch {
            seen: None,
            passed: Duration::ZERO,
        }
    }

    /// Takes in what the clock shows now.
    pub fn see(&mut self, now: Instant)
        ensures seen { seen_last self.new ≡ Some (instant_nanos now) }
        ensures passed { passed_in self.new ≡ min (passed_in self.old + going (seen_last self.old) (instant_nanos now)) max_nanos }
    {
        self.passed = self.passed.saturating_add(going(self.seen, now));
        self.seen = Some(now);
    }

    /// Returns how many whole milliseconds have passed.
    pub fn milliseconds(&self) -> u64
        ensures { result ≡ min (passed_in self.now / 1_000_000) (2 ^ 64 - 1) }
    {
        u64::try_from(self.passed.as_millis()).unwrap_or(u64::MAX)
    }
}

//! The moment that a clock shows, to the second.

ghost use Rattle.std.specs.Prelude.{◌≡◌, IfSome, None};
ghost use Rattle.jiff_core.specs.Timestamp.{IsTimestampNanos, nanos_of_seconds};
ghost use Rattle.metadata_values.specs.Seconds.{IsTextOf, IsMomentOf, IsTextSince1970};

use crate::moments::Moment;
use jiff::Timestamp;
use jiff_fmt::temporal::DateTimePrinter;
use std::time::Clock;

/// Returns the moment of the second since 1970, which may be before it; none where no moment has its text.
pub fn moment_of(second: i64) -> Option<Moment>
    ensures text { IfSome result (IsTextOf second) }
    ensures fits { IsTimestampNanos (nanos_of_seconds second) → IsMomentOf second result }
    ensures beyond { ¬ (IsTimestampNanos (nanos_of_seconds second)) → result ≡ None }
{
    match Timestamp::from_second(second) {
        Ok(instant) => {
            let text = DateTimePrinter::new().timestamp_text(instant.to_plain());
            Moment::parse(text.as_bytes())
        }
        Err(_) => None,
    }
}

/// Returns the moment that the clock shows: of its instant, what is below the second is dropped. None where the clock
/// fails, or shows no instant that has a moment.
pub fn moment(clock: &impl Clock) -> Option<Moment>
    ensures { IfSome result IsTextSince1970 }
{
    match Timestamp::now(clock) {
        Ok(instant) => moment_of(instant.to_plain().floor_second()),
        Err(_) => None,
    }
}

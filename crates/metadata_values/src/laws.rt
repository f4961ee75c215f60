//! What follows for a stopwatch over a clock that may fall back.
ghost use Rattle.metadata_values.specs.Stopwatches.{AllIsCounted, FallsAreNotCounted};

/// Between two falls as much passes as passes on the clock, however often it is seen.
pub fn all_is_counted()
    ensures { AllIsCounted }
{}

/// Nothing passes at a fall, and it is counted on from there.
pub fn falls_are_not_counted()
    ensures { FallsAreNotCounted }
{}

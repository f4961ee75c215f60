//! Laws of the failures of keys of any type, and of the delays that follow them.
ghost use Rattle.keyed_queues.specs.FailureLaws.{FailedHaveFailures, FailuresAreTakenBack, DelaysDouble};

use crate::named::Named;

/// A key that failed has failures, so that they can be set to what they were.
pub fn failed_have_failures<K: Named>()
    ensures { FailedHaveFailures K.order }
{}

/// A failure that is taken back leaves no trace.
pub fn failures_are_taken_back<K: Named>()
    ensures { FailuresAreTakenBack K.order }
{}

/// After each failure a key waits twice as long as before, and at most 1,000 seconds.
pub fn delays_double()
    ensures { DelaysDouble }
{}

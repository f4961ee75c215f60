//! What queues, delays and failures are where the keys are work keys.
ghost use Rattle.keyed_queues.specs.WorkLaws.{QueuesAreWorkQueues, KeysAreHandedOut, KeysAreDelayed, KeysAreDue, FailuresAreCounted};

/// Whatever calls are made of a queue of work keys, it is the work queue after them.
pub fn queues_are_work_queues()
    ensures { QueuesAreWorkQueues }
{}

/// A queue of work keys hands out the key that the work queue hands out.
pub fn keys_are_handed_out()
    ensures { KeysAreHandedOut }
{}

/// Work keys are delayed, and stay delayed, as those of controllers are.
pub fn keys_are_delayed()
    ensures { KeysAreDelayed }
{}

/// Work keys come due when those of controllers do, in the same order.
pub fn keys_are_due()
    ensures { KeysAreDue }
{}

/// The failures of work keys are counted as those of controllers are.
pub fn failures_are_counted()
    ensures { FailuresAreCounted }
{}

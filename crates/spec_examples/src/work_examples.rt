//! Worked facts of the queue, of delays and of expectations.
ghost use Rattle.spec_examples.specs.WorkExamples.{KeysWaitOnce, DelaysDouble, KeysComeDue, CreationsAreAwaited};

/// A key that is added twice waits once; one that is added while a worker has it waits again once the worker is done.
pub fn keys_wait_once()
    ensures { KeysWaitOnce }
{}

/// The delays of a key that fails again and again: 5, 10 and 20 ms, and from the nineteenth failure on 1,000 s.
pub fn delays_double()
    ensures { DelaysDouble }
{}

/// Which keys are due at a moment, and in which order.
pub fn keys_come_due()
    ensures { KeysComeDue }
{}

/// Of two creations the wait lasts 300,000 ms and no longer, and ends once both were seen.
pub fn creations_are_awaited()
    ensures { CreationsAreAwaited }
{}

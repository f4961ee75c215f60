//! Laws of keys that wait.
ghost use Rattle.sim_rest_laws.specs.KeptKeyLaws.{DirtyKeysAreQueuedOrInHand, NothingIsDirtyAtRest, RetriesAreKept};

/// Over every list of steps, a key that is to be processed is queued, or in a worker's hands.
pub fn dirty_keys_are_queued_or_in_hand()
    ensures { DirtyKeysAreQueuedOrInHand }
{}

/// Where all is at rest, no key is to be processed.
pub fn nothing_is_dirty_at_rest()
    ensures { NothingIsDirtyAtRest }
{}

/// Over every list of steps, the key of a turn that did not go well is delayed, or is to be processed, or was taken since, unless
/// there was a restart.
pub fn retries_are_kept()
    ensures { RetriesAreKept }
{}

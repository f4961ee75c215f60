//! Laws of how turns begin.
ghost use Rattle.sim_worker_laws.specs.TakeLaws.{TakesGiveTheHead, OnlyTakesGive};

/// A worker that has nothing in hand and takes a key gets the head of the queue, if one is queued and each kind has been published.
pub fn takes_give_the_head()
    ensures { TakesGiveTheHead }
{}

/// Nothing else gives a worker a turn.
pub fn only_takes_give()
    ensures { OnlyTakesGive }
{}

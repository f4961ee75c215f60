//! Laws of the keys in workers' hands.
ghost use Rattle.sim_worker_laws.specs.TurnLaws.{HandsAreApart, ProcessingIsInHands};

/// Over every list of steps, no key is in two workers' hands.
pub fn hands_are_apart()
    ensures { HandsAreApart }
{}

/// Over every list of steps, the keys that are being processed are those in workers' hands.
pub fn processing_is_in_hands()
    ensures { ProcessingIsInHands }
{}

//! Laws of who is given the reference to a set, and of what a run is to a set that it lets alone.
ghost use Rattle.sim_overshoot_laws.specs.ClaimLaws.{StoredHaveOneController, LetAloneIsClaimed, LetAloneIsFair};

/// Whoever asked, of the owners that an object names at most one is its controller.
pub fn stored_have_one_controller()
    ensures { StoredHaveOneController }
{}

/// Whatever steps are taken that let a set alone, a pod that is given the reference to the set after the revision that is published of pods
/// is a new one, or was there at that revision.
pub fn let_alone_is_claimed()
    ensures { LetAloneIsClaimed }
{}

/// Whatever steps are taken that let a set alone, what is published of pods shows no more creations of its pods than there were, and the first list none.
pub fn let_alone_is_fair()
    ensures { LetAloneIsFair }
{}

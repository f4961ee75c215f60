//! Laws of lists at versions and of watches that are given a part at a time.
ghost use Rattle.spec_laws.specs.VersionLaws.{WatchesGiveFirstChanges};

/// A watch that asks for n events is given the first n of all, and goes on from the n-th, or from now where there is no other.
pub fn watches_give_first_changes()
    ensures { WatchesGiveFirstChanges }
{}

//! Laws of watches.
ghost use Rattle.controller_watches.specs.Joint.{NothingIsMissed, OneIsAsItWas};

/// What one of some watches asks for, is in the scope that is followed of its kind.
pub fn nothing_is_missed()
    ensures { NothingIsMissed }
{}

/// A kind that one watch names is followed as that says.
pub fn one_is_as_it_was()
    ensures { OneIsAsItWas }
{}

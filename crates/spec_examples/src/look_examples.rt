//! Worked facts of looks for some changes, all or none, which the checker computes from the definitions.
ghost use Rattle.spec_examples.specs.LookExamples.{NoneMayBeAsked, SomeMayBeLeft, ListsComeFirst};

/// A look that asks for no change, where some are left, where none is, and where it is refused.
pub fn none_may_be_asked()
    ensures { NoneMayBeAsked }
{}

/// Looks that ask for one or two of four changes, and what the next looks show.
pub fn some_may_be_left()
    ensures { SomeMayBeLeft }
{}

/// A watch that names no revision, where objects are there and where none is.
pub fn lists_come_first()
    ensures { ListsComeFirst }
{}

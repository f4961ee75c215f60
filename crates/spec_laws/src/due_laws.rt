//! Laws of delays.
ghost use Rattle.spec_laws.specs.DueLaws.{DueHaveCome, DueAreInTurn, DueAreTheOnlyList, StillDelayedAreLater};

/// A key is handed over when its moment has come, and not before.
pub fn due_have_come()
    ensures { DueHaveCome }
{}

/// Keys are handed over in the order of their moments, and those of one moment in the order of keys, each once.
pub fn due_are_in_turn()
    ensures { DueAreInTurn }
{}

/// So it is settled which keys are handed over, and in which order.
pub fn due_are_the_only_list()
    ensures { DueAreTheOnlyList }
{}

/// A key whose moment is later stays delayed to that moment, and no other does.
pub fn still_delayed_are_later()
    ensures { StillDelayedAreLater }
{}

//! Laws of what is told of keys.
ghost use Rattle.controller_layers.specs.KeyNotes.{ConflictsAreNotTold, ToldOnce};

/// A failure of a key is told once, however often it is tried again and fails for the same cause.
pub fn told_once()
    ensures { ToldOnce }
{}

/// Of conflicts nothing is told, however many there are.
pub fn conflicts_are_not_told()
    ensures { ConflictsAreNotTold }
{}

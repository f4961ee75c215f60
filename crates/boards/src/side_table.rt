//! What stands beside the keys of a board, and is stepped with it.
ghost use Rattle.std.specs.Prelude.{◌≡◌};

use std::alloc::Global;

/// A table that stands beside the keys of a board. What is noted in it is noted in the same step as keys are added, or one is given back.
pub trait SideTable: Drop {
    /// What is noted.
    type Note;

    /// The table of a board that begins.
    ghost empty: { Self };

    /// What a note makes of a table.
    ghost noted: { Self.Note → Self → Self };

    /// Returns the table of a board that begins. It takes no memory.
    fn new(alloc: Global) -> Self
        ensures { result ≡ empty };

    /// Notes something. It takes no memory.
    fn note(&mut self, note: &Self::Note)
        ensures { self.new ≡ noted note.now self.old };
}

impl SideTable for () {
    ghost use Rattle.std.specs.Prelude.{refl};

    type Note = ();

    ghost empty = { tt };

    ghost noted = { λ m t. t };

    fn new(_alloc: Global) {}

    fn note(&mut self, _note: &()) {}
}

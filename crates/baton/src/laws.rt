//! What a baton is told of its states.
ghost use Rattle.std.specs.Prelude.{List, ℕ, Option, None};

use std::marker::Brand;

/// The states of a baton, and how they come of one another. A history is a list of entries, oldest first, each marked
/// with the name of the pass that made it.
pub trait Law<T> {
    /// What happens to a state.
    type Entry;

    /// The states with which a baton may open.
    ghost opens: { T → Type 0 };

    /// The state that entries give, from an opening one.
    ghost gives: { T → List Self.Entry → T };

    /// Which entry of the pass with a name may follow a history. Every history that a pass sees is made of entries that may
    /// follow one another, so what is said here is known of all of it: say that a write is the one that a request makes,
    /// and who takes the state learns that its history is a reached one.
    ghost follows: { List (ℕ × Self.Entry) → ℕ → Self.Entry → Type 0 };
}

/// The entry that a give makes, if it makes one.
pub trait EntryMade<E> {
    ghost entry: { Option E };
}

impl<E> EntryMade<E> for Brand {
    ghost entry = { None };
}

//! Worked facts of watches that begin with initial events, which the checker computes from the definitions.
ghost use Rattle.spec_examples.specs.StreamExamples.{EmptyListsAreClosed, ListsAreClosed, StartsAreRead};

/// Initial events of the empty store.
pub fn empty_lists_are_closed()
    ensures { EmptyListsAreClosed }
{}

/// How watches begin that queries ask for.
pub fn starts_are_read()
    ensures { StartsAreRead }
{}

/// Initial events of a store with two objects, with bookmarks and without, where earlier revisions are gone.
pub fn lists_are_closed()
    ensures { ListsAreClosed }
{}

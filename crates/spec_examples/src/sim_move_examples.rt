//! Worked facts of moves.
ghost use Rattle.spec_examples.specs.SimMoveExamples.{SendsOfNoneMove, FirstListsAreMarked, LaterListsAreNotMarked, RestartsDropAll, CutsDropParts, DeliveriesCountBytes};

/// A send of no changes moves the link to the present revision where none is left, and leaves it where one is.
pub fn sends_of_none_move()
    ensures { SendsOfNoneMove }
{}

/// What the first list changed is told as that, and what came after it is not, also where both are published at once.
pub fn first_lists_are_marked()
    ensures { FirstListsAreMarked }
{}

/// What a list changed that was taken in after an expiry is told as any other change.
pub fn later_lists_are_not_marked()
    ensures { LaterListsAreNotMarked }
{}

/// A restart leaves nothing of what followed the server, and all that has happened at it.
pub fn restarts_drop_all()
    ensures { RestartsDropAll }
{}

/// Part of a frame is buffered; a cut drops it, and leaves what waits to be published.
pub fn cuts_drop_parts()
    ensures { CutsDropParts }
{}

/// A delivery counts bytes, and not letters.
pub fn deliveries_count_bytes()
    ensures { DeliveriesCountBytes }
{}

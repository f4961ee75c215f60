//! Worked facts of windows, which the checker computes from the definitions.
ghost use Rattle.spec_examples.specs.WindowExamples.{FloorsAreReached, WatchesReachBack, ListsReachBack};

/// What a window of the last writes answers.
pub fn windows_reach_back()
    // Where the floor is after six writes, with room for four of them and for all, after compactions, and after a write of
    // another kind.
    ensures floors_are_reached { FloorsAreReached }
    // A watch from the floor, from later revisions, and from the ones below and above that are refused.
    ensures watches_reach_back { WatchesReachBack }
    // The lists of earlier revisions, from the present one with the writes since then undone, two of them to one object.
    ensures lists_reach_back { ListsReachBack }
{}

//! Worked facts of servers, which the checker computes from the definitions.
ghost use Rattle.spec_examples.specs.ServerExamples.{ListsAreAnswered, WatchesAreGiven, CompactionsMoveFloors};

/// What a server answers that keeps room for the last writes.
pub fn servers_answer()
    // Lists after six writes, with room for four of them: at the present revision, at the floor and between, at the ones below
    // and above that are refused, and where an older one would do.
    ensures lists_are_answered { ListsAreAnswered }
    // Watches that are given some changes, all, or none, and of a kind that has no writes.
    ensures watches_are_given { WatchesAreGiven }
    // A compaction above the present revision, and what is refused after one.
    ensures compactions_move_floors { CompactionsMoveFloors }
{}

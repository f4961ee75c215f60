//! Laws of boards of keys.
ghost use Rattle.keyed_board.specs.DueLaws.{DueIsTold};
ghost use Rattle.keyed_board.specs.PatienceLaws.{LeavesAlone};
ghost use Rattle.keyed_board.specs.WorkLaws.{AreWorkBoards};

use keyed_queues::Named;

/// Nothing comes due before the milliseconds have passed that a board tells, and then something does; where it tells none, no key is
/// delayed.
pub fn due_is_told<K: Named>()
    ensures { DueIsTold K.order }
{}

/// A key whose work a server refused, and which was not delayed before, comes due no sooner than the server asks, for whatever time that is.
pub fn leaves_alone<K: Named>()
    ensures { LeavesAlone K.order }
{}

/// A board of work keys, with expectations beside it, is the board that controllers share: each step of the one is a step of the other.
pub fn are_work_boards()
    ensures { AreWorkBoards }
{}

//! Laws of boards.
ghost use Rattle.boards.specs.DueLaws.{DueIsTold};

use crate::side_table::SideTable;
use keyed_queues::Named;

/// Nothing comes due before the milliseconds have passed that a board tells, and then something does; where it tells none, no key is
/// delayed.
pub fn due_is_told<K: Named, S: SideTable>()
    ensures { DueIsTold K.order S }
{}

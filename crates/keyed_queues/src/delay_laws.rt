//! Laws of delays of keys of any type.
ghost use Rattle.keyed_queues.specs.DelayLaws.{DueHaveCome, DueAreInTurn, DueAreTheOnlyList, StillDelayedAreLater};

use crate::named::Named;

/// A key is handed over when its moment has come, and not before.
pub fn due_have_come<K: Named>()
    ensures { DueHaveCome K.order }
{}

/// Keys are handed over in the order of their moments, and those of one moment in the order of keys, each once.
pub fn due_are_in_turn<K: Named>()
    ensures { DueAreInTurn K.order }
{}

/// So it is settled which keys are handed over, and in which order.
pub fn due_are_the_only_list<K: Named>()
    ensures { DueAreTheOnlyList K.order }
{}

/// A key whose moment is later stays delayed to that moment, and no other does.
pub fn still_delayed_are_later<K: Named>()
    ensures { StillDelayedAreLater K.order }
{}

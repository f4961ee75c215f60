//! Laws of the histories that passes see.
ghost use Rattle.desk.specs.Histories.{ReadHistoriesAreReached, HistoriesCanHappen};
ghost use Rattle.desk.specs.Steps.{StepsHaveCome};

use crate::askings::Asking;

/// Where only requests that can be read are asked, each law of what a server can reach is one of every history that a pass sees.
pub fn read_histories_are_reached()
    ensures { ReadHistoriesAreReached }
{}

/// Whatever is asked, none is compacted that is yet to come.
pub fn histories_can_happen<A: Asking>()
    ensures { HistoriesCanHappen A.MayAsk }
{}

/// All that a pass has seen after a call has come, with the entry of the call: so that the laws of such histories speak of it.
pub fn steps_have_come<A: Asking>()
    ensures { StepsHaveCome A.MayAsk }
{}

//! How many connections some loops took.
ghost use Rattle.std.specs.Prelude.{◌≡◌, ◌≤◌, ◌<◌, ◌^◌};
ghost use Rattle.http_event_loop.specs.Counted.{taken_over};

use crate::event_loop::EventLoop;
use crate::turns::TurnsTaken;
use std::sync::ledger::Ledger;

impl<S: Drop, L: Ledger> EventLoop<'_, S, L> {
    /// Returns the turns that its connections took.
    fn into_taken(self) -> TurnsTaken<L>
        ensures { result ≡ self.entry.asker.taken }
    {
        self.asker.taken
    }
}

/// Returns how many connections loops took: no more than there were turns.
pub fn count_taken<S: Drop, L: Ledger>(event_loops: Vec<EventLoop<'_, S, L>>) -> u64
    requires { L.parts < 2 ^ 64 }
    ensures count { result ≡ taken_over event_loops.entry.items }
    ensures most { result ≤ L.parts }
{
    let mut left = event_loops;
    let Some(last) = left.pop() else {
        return 0;
    };
    let mut taken = last.into_taken();
    while let Some(next) = left.pop() {
        taken.add(next.into_taken());
    }
    taken.total()
}

//! Time, as a follower sees it.
ghost use Rattle.std.specs.Prelude.{ℕ, ⊤};
ghost use Rattle.list_and_watch.specs.declared.onward.Onward as words;

use crate::onward::Onward;

/// A clock, and a way to wait.
pub trait Timer {
    /// What shows the time is after it showed so many milliseconds: any relation, and none where an implementer gives none.
    ghost shows: { Self → ℕ → Self → Type 0 } = { λ before milliseconds after. ⊤ };

    /// What waited is after it waited for so many milliseconds and said whether the follower goes on: any relation, and none where an implementer
    /// gives none.
    ghost waits: { Self → ℕ → words.Onward → Self → Type 0 } = { λ before milliseconds onward after. ⊤ };

    /// Returns the milliseconds since some moment.
    fn now(&mut self) -> u64
        ensures { shows self.old result self.new };

    /// Waits for so many milliseconds, or until the follower is told to stop, and returns whether it goes on.
    fn pause(&mut self, milliseconds: u64) -> Onward
        ensures { waits self.old milliseconds result self.new };
}

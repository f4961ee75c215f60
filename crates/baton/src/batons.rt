//! A state that one pass at a time may hold, and the right to take it.
ghost use Rattle.std.specs.Prelude.{◌≡◌};
ghost use Rattle.crossbeam_queue.specs.Passes.{ruled_capacity};

use crate::event_count::EventCount;
use crate::laws::Law;
use crate::rules::Rule;
use crate::views::PassView;
use crossbeam_queue::RuledArrayQueue;

/// The right to take a baton's state.
pub type Pass<T, L> = crossbeam_queue::Pass<T, PassView<T, <L as Law<T>>::Entry>>;

/// A state that one pass at a time may hold. Each pass knows a beginning of the one history of this state.
#[derive(Drop)]
pub struct Baton<T: Drop, L: Law<T>> {
    pub(crate) queue: RuledArrayQueue<T, PassView<T, L::Entry>, Rule<L>>,
    pub(crate) gives: EventCount,
    ghost one: { ruled_capacity queue ≡ 1 },
}

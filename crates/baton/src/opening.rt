//! How a baton opens.
ghost use Rattle.std.specs.Prelude.{◌≡◌, ◌+◌, ◌<◌, ◌≤◌, [], Some, IfOk, All, length};
ghost use Rattle.std.specs.Vec.{vec_capacity};
ghost use Rattle.crossbeam_queue.specs.Passes.{view};
ghost use Rattle.baton.specs.Batons.{IsNew, IsFirst, IsNewOf, AreNumbered, name_of};

use crate::batons::Baton;
use crate::event_count::EventCount;
use crate::laws::Law;
use crate::rules::{Heirs, Opens};
use crate::views::PassView;
use crossbeam_queue::{Pass, RuledArrayQueue};
use std::alloc::{AllocError, Global};
use std::mem;

impl<T: Drop, L: Law<T>> Baton<T, L> {
    /// Returns a baton with a state, and `count` passes of it, which have seen nothing and made nothing. Their names are 0, 1
    /// and so on, and no entry will ever have a later name than the last. The error is out of memory, and drops the state.
    pub fn open(
        alloc: Global,
        state: T,
        count: usize,
    ) -> Result<(Baton<T, L>, Vec<Pass<T, PassView<T, L::Entry>>>), AllocError>
        requires count { 0 < count }
        requires state { L.opens state × (state ≡ L.gives state []) }
        ensures passes { IfOk result (λ r. All (IsNewOf count r.0 (Some state)) r.1.items) }
        ensures count { IfOk result (λ r. length r.1.items ≡ count) }
        ensures names { IfOk result (λ r. AreNumbered r.1.items) }
    {
        let passes = Vec::with_capacity(alloc, count)?;
        let (queue, mut first) = RuledArrayQueue::ruled(alloc, 1)?;
        if queue.try_push_as::<Opens>(&mut first, state).is_err() {
            return Err(AllocError);
        }
        let baton = Baton {
            queue,
            gives: EventCount::new(),
        };
        let passes = baton.crew(first, passes, count);
        Ok((baton, passes))
    }

    /// Returns the passes of a baton of which this is the first.
    #[tactic(auto, using(crate::proofs::Numbers::numbered_more))]
    fn crew(
        &self,
        first: Pass<T, PassView<T, L::Entry>>,
        mut passes: Vec<Pass<T, PassView<T, L::Entry>>>,
        count: usize,
    ) -> Vec<Pass<T, PassView<T, L::Entry>>>
        requires first { IsFirst self.now (view first).own.opening first }
        requires name { name_of first ≡ 0 }
        requires none { passes.items ≡ [] }
        requires room { (0 < count) × (count ≤ vec_capacity passes) }
        ensures passes { All (IsNewOf count self.now (view first).own.opening) result.items }
        ensures count { length result.items ≡ count }
        ensures names { AreNumbered result.items }
    {
        let mut next = first;
        while passes.len() + 1 < count {
            passes.push_reserved(self.hand_out(&mut next));
        }
        passes.push_reserved(next);
        passes
    }

    /// Returns a pass, and leaves the next one in its place.
    fn hand_out(&self, next: &mut Pass<T, PassView<T, L::Entry>>) -> Pass<T, PassView<T, L::Entry>>
        requires { IsFirst self.now (view next.old).own.opening next.old }
        ensures pass { IsNew self.now (view next.old).own.opening result }
        ensures next { IsFirst self.now (view next.old).own.opening next.new }
        ensures names { (name_of result ≡ name_of next.old) × (name_of next.new ≡ name_of next.old + 1) }
    {
        let heir = self.queue.another::<Heirs>(next);
        mem::replace(next, heir)
    }
}

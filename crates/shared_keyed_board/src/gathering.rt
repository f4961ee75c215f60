//! Passes that are gathered: one of them learns a history that has all steps of the others.
ghost use Rattle.std.specs.Prelude.{◌≡◌, ◌≤◌, ◌+◌, [], OnOk, All, map, reverse, vec_len};
ghost use Rattle.std.specs.Vec.{vec_capacity};
ghost use Rattle.shared_keyed_board.specs.Calls.{HasSeenAll, HaveMet};
ghost use Rattle.shared_keyed_board.specs.Passes.{sight, key_in_hand, IsPassAt};

use crate::boards::{BoardPass, SharedKeyedBoard};
use keyed_queues::Named;
use std::alloc::{AllocError, Global};
use std::sync::Wait;

impl<K: Named> SharedKeyedBoard<K> {
    /// Has a pass see all that others have seen. In the history that it has seen then, the steps of each are just those that it made. It adds
    /// no key at the board, in a step of its own: so none of the others can have seen as much. The error is running out of memory: the others are as
    /// they were.
    pub fn gather<R: Wait>(
        &self,
        rt: &R,
        alloc: Global,
        one: &mut BoardPass<K>,
        others: &mut Vec<BoardPass<K>>,
    ) -> Result<(), AllocError>
        requires one { IsPassAt self.now one.old }
        requires others { All (IsPassAt self.now) others.old.items }
        ensures one { IsPassAt self.now one.new }
        ensures others { All (IsPassAt self.now) others.new.items }
        ensures same { map (sight K.says) others.new.items ≡ map (sight K.says) others.old.items }
        ensures seen { OnOk result (All (HasSeenAll K.order (sight K.says one.new)) (map (sight K.says) others.new.items)) }
        ensures key { key_in_hand K.says one.new ≡ key_in_hand K.says one.old }
    {
        let mut met = Vec::with_capacity(alloc, others.len())?;
        self.meet_each(one, others, &mut met);
        let marked = self.add_all(rt, one, &[]);
        self.meet_each(one, &mut met, others);
        marked
    }

    /// Compares a pass with each of others, the last first, and moves these over.
    fn meet_each(
        &self,
        one: &mut BoardPass<K>,
        from: &mut Vec<BoardPass<K>>,
        to: &mut Vec<BoardPass<K>>,
    )
        requires one { IsPassAt self.now one.old }
        requires others { All (IsPassAt self.now) from.old.items }
        requires none { to.old.items ≡ [] }
        requires room { vec_len from.old ≤ vec_capacity to.old }
        ensures one { IsPassAt self.now one.new }
        ensures sight { sight K.says one.new ≡ sight K.says one.old }
        ensures others { All (IsPassAt self.now) to.new.items }
        ensures moved { map (sight K.says) to.new.items ≡ reverse (map (sight K.says) from.old.items) }
        ensures met { All (HaveMet K.order (sight K.says one.old)) (map (sight K.says) to.new.items) }
        ensures emptied { from.new.items ≡ [] }
        ensures count { vec_len to.new ≡ vec_len from.old }
        ensures capacity { vec_capacity from.new ≡ vec_capacity from.old }
    {
        while let Some(mut other) = from.pop() {
            self.meet(one, &mut other);
            to.push_reserved(other);
        }
    }
}

//! Published changes, handled: the keys that they owe are added to the board.
use crate::worlds::ControllerWorld;
use keyed_queues::Named;
use reconciler::{Reconciler, owed_again};
use spec_api::kinds::Kind;
use std::alloc::{AllocError, Global};

impl<K: Named> ControllerWorld<K> {
    ghost use Rattle.std.specs.Prelude.{◌≡◌, IfOk, IfSome, IfNone, OnErr, None, map};
    ghost use Rattle.keyed_board.specs.Boards.{with_keys};
    ghost use Rattle.keyed_board.specs.Said.{said};
    ghost use Rattle.reconciler.specs.Owing.{AreOwed};
    ghost use Rattle.reconciler.specs.Unchanged.{all_unchanged};
    ghost use Rattle.controller_simulation.specs.Handling.{Handles};
    ghost use Rattle.controller_simulation.specs.Worlds.{shown_in};

    /// Handles the oldest published change of a kind that is still to be handled: adds the keys that it owes by what is shown, and returns them; nothing
    /// where there is no such change. The error is running out of memory, and changes nothing.
    pub fn handle<C: Reconciler<K>>(
        &mut self,
        alloc: Global,
        controller: &C,
        kind: Kind,
    ) -> Result<Option<Vec<K>>, AllocError>
        ensures handled { IfOk result (Handles K.order K.says C.owes kind self.old self.new) }
        ensures turns { self.new.turns ≡ self.old.turns }
        ensures err { OnErr result (self.new.cluster ≡ self.old.cluster) }
        ensures err_board { OnErr result (said K.order K.says self.new.board ≡ said K.order K.says self.old.board) }
    {
        let shown = self.shown()?;
        let Some(oldest) = self.cluster.oldest(kind) else {
            return Ok(None);
        };
        let keys = controller.keys_of(alloc, &oldest.shift, &shown)?;
        self.board.add_all(keys.as_slice())?;
        self.cluster.remove_oldest(kind);
        Ok(Some(keys))
    }

    /// Has each object that is shown, of each kind, count as a change that leaves it as it is: adds the keys that these owe, and returns them. A runtime
    /// does so after each list of a kind that is not the first. The error is running out of memory, and changes nothing.
    pub fn owe_again<C: Reconciler<K>>(
        &mut self,
        alloc: Global,
        controller: &C,
    ) -> Result<Vec<K>, AllocError>
        ensures cluster { self.new.cluster ≡ self.old.cluster }
        ensures turns { self.new.turns ≡ self.old.turns }
        ensures board { IfOk result (λ keys. said K.order K.says self.new.board ≡ with_keys (map K.says keys.items) (said K.order K.says self.old.board)) }
        ensures owed { IfOk result (λ keys. AreOwed (C.owes (shown_in self.old.cluster)) (all_unchanged (shown_in self.old.cluster)) keys.items) }
        ensures err { OnErr result (said K.order K.says self.new.board ≡ said K.order K.says self.old.board) }
    {
        let shown = self.shown()?;
        let keys = owed_again(alloc, controller, &shown)?;
        self.board.add_all(keys.as_slice())?;
        Ok(keys)
    }
}

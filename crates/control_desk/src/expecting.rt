//! What is expected at a desk.
ghost use Rattle.std.specs.Prelude.{◌≡◌, None, IfOk, map, string_bytes};
ghost use Rattle.spec_client_go.specs.Boards.{is_satisfied};
ghost use Rattle.work_board.specs.Aged.{HaveAgedOut};
ghost use Rattle.work_board.specs.Seen.{owner_of};
ghost use Rattle.object_keys.specs.Keys.{key_of};
ghost use Rattle.object_keys.specs.WorkKeys.{work_key_of};
ghost use Rattle.control_desk.specs.Calls.{IsCall, Nothing, after_give, once_ok};
ghost use Rattle.control_desk.specs.Desks.{known, key_in_hand, IsPassAt, IsHolding};
ghost use Rattle.control_desk.specs.Hands.{state};
ghost use Rattle.control_desk.specs.Steps.{changing, expect_creations, expect_deletions, forget};

use crate::desks::{ControlDesk, WorkPass};
use crate::entries::WorkEntry;
use crate::states::WorkState;
use crate::steps;
use baton::{EntryMade, Held};
use object_keys::Key;
use std::alloc::AllocError;
use std::marker::Brand;
use std::sync::Wait;
use work_board::{AgedOut, Owner};

impl ControlDesk {
    /// Sets that a ReplicaSet expects so many pods to be created, from now on, and nothing else. The error is running out of memory,
    /// and changes nothing.
    pub fn expect_creations<R: Wait>(
        &self,
        rt: &R,
        pass: &mut WorkPass,
        owner: &Owner,
        creations: u32,
    ) -> Result<(), AllocError>
        requires { IsPassAt self.now pass.old }
        ensures pass { IsPassAt self.now pass.new }
        ensures step { IsCall (known pass.old)
            (λ b. once_ok result (changing (expect_creations (owner_of owner.now) creations) b))
            Nothing (known pass.new) }
        ensures key { key_in_hand pass.new ≡ key_in_hand pass.old }
    {
        let held = self.take(rt, pass);
        self.expect_creations_held::<Brand, R>(rt, pass, held, owner, creations)
    }

    /// Sets that a ReplicaSet expects the pods of these uids to be deleted, from now on, and nothing else. The error is running
    /// out of memory, and changes nothing.
    pub fn expect_deletions<R: Wait>(
        &self,
        rt: &R,
        pass: &mut WorkPass,
        owner: &Owner,
        pods: Vec<String>,
    ) -> Result<(), AllocError>
        requires { IsPassAt self.now pass.old }
        ensures pass { IsPassAt self.now pass.new }
        ensures step { IsCall (known pass.old)
            (λ b. once_ok result (changing (expect_deletions (owner_of owner.now) (map string_bytes pods.items)) b))
            Nothing (known pass.new) }
        ensures key { key_in_hand pass.new ≡ key_in_hand pass.old }
    {
        let held = self.take(rt, pass);
        self.expect_deletions_held::<Brand, R>(rt, pass, held, owner, pods)
    }

    /// Returns whether a ReplicaSet expects nothing: nothing was set, nothing is left, or more than five minutes have passed. The
    /// pass has then seen all that had happened.
    pub fn satisfied<R: Wait>(&self, rt: &R, pass: &mut WorkPass, owner: &Owner) -> bool
        requires { IsPassAt self.now pass.old }
        ensures pass { IsPassAt self.now pass.new }
        ensures step { IsCall (known pass.old)
            (λ b. None) (λ b. result ≡ is_satisfied (owner_of owner.now) b.board) (known pass.new) }
        ensures key { key_in_hand pass.new ≡ key_in_hand pass.old }
    {
        let held = self.take(rt, pass);
        let answer = held.get().board.satisfied(owner);
        self.give_back(rt, pass, held);
        answer
    }

    /// Returns the keys of the ReplicaSets that expected something at the moment `before`, and by its age no longer do, with the moment
    /// that it is: who asks again with that misses none. The pass has then seen all that had happened. The error is running out of
    /// memory.
    pub fn aged_out<R: Wait>(
        &self,
        rt: &R,
        pass: &mut WorkPass,
        before: u64,
    ) -> Result<AgedOut, AllocError>
        requires { IsPassAt self.now pass.old }
        ensures pass { IsPassAt self.now pass.new }
        ensures step { IsCall (known pass.old) (λ b. None)
            (λ b. IfOk result (λ a. HaveAgedOut before a.moment (map work_key_of a.keys.items) b.board)) (known pass.new) }
        ensures key { key_in_hand pass.new ≡ key_in_hand pass.old }
    {
        let held = self.take(rt, pass);
        let answer = held.get().board.aged_out(before);
        self.give_back(rt, pass, held);
        answer
    }

    /// Removes what every ReplicaSet of this key expects, whatever its uid.
    pub fn forget<R: Wait>(&self, rt: &R, pass: &mut WorkPass, key: &Key)
        requires { IsPassAt self.now pass.old }
        ensures pass { IsPassAt self.now pass.new }
        ensures step { IsCall (known pass.old) (changing (forget (key_of key.now)))
            Nothing (known pass.new) }
        ensures key { key_in_hand pass.new ≡ key_in_hand pass.old }
    {
        let held = self.take(rt, pass);
        self.forget_held::<Brand, R>(rt, pass, held, key);
    }

    /// Sets creations on the board that the pass holds, and gives the board back.
    fn expect_creations_held<M: EntryMade<WorkEntry>, R: Wait>(
        &self,
        rt: &R,
        pass: &mut WorkPass,
        held: Held<WorkState>,
        owner: &Owner,
        creations: u32,
    ) -> Result<(), AllocError>
        requires pass { IsHolding self.now pass.old held }
        requires entry { M.entry ≡ changing (expect_creations (owner_of owner.now) creations) (state (known pass.old).seen) }
        ensures pass { IsPassAt self.now pass.new }
        ensures key { key_in_hand pass.new ≡ key_in_hand pass.old }
        ensures known { known pass.new ≡ after_give (known pass.old) (once_ok result M.entry) }
    {
        let mut held = held;
        match steps::expect_creations(&mut held, owner, creations) {
            Ok(()) => {
                self.baton.give::<M, R>(rt, pass, held);
                Ok(())
            }
            Err(error) => {
                self.give_back(rt, pass, held);
                Err(error)
            }
        }
    }

    /// Sets deletions on the board that the pass holds, and gives the board back.
    fn expect_deletions_held<M: EntryMade<WorkEntry>, R: Wait>(
        &self,
        rt: &R,
        pass: &mut WorkPass,
        held: Held<WorkState>,
        owner: &Owner,
        pods: Vec<String>,
    ) -> Result<(), AllocError>
        requires pass { IsHolding self.now pass.old held }
        requires entry { M.entry
            ≡ changing (expect_deletions (owner_of owner.now) (map string_bytes pods.items)) (state (known pass.old).seen) }
        ensures pass { IsPassAt self.now pass.new }
        ensures key { key_in_hand pass.new ≡ key_in_hand pass.old }
        ensures known { known pass.new ≡ after_give (known pass.old) (once_ok result M.entry) }
    {
        let mut held = held;
        match steps::expect_deletions(&mut held, owner, pods) {
            Ok(()) => {
                self.baton.give::<M, R>(rt, pass, held);
                Ok(())
            }
            Err(error) => {
                self.give_back(rt, pass, held);
                Err(error)
            }
        }
    }

    /// Removes what is expected from the board that the pass holds, and gives the board back.
    fn forget_held<M: EntryMade<WorkEntry>, R: Wait>(
        &self,
        rt: &R,
        pass: &mut WorkPass,
        held: Held<WorkState>,
        key: &Key,
    )
        requires pass { IsHolding self.now pass.old held }
        requires entry { M.entry ≡ changing (forget (key_of key.now)) (state (known pass.old).seen) }
        ensures pass { IsPassAt self.now pass.new }
        ensures key { key_in_hand pass.new ≡ key_in_hand pass.old }
        ensures known { known pass.new ≡ after_give (known pass.old) M.entry }
    {
        let mut held = held;
        steps::forget(&mut held, key);
        self.baton.give::<M, R>(rt, pass, held);
    }
}

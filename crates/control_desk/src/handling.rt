//! What is handled at a desk: changes, keys that are added, and time that passes.
ghost use Rattle.std.specs.Prelude.{◌≡◌, None, IfOk, map};
ghost use Rattle.spec_client_go.specs.Boards.{may_tick};
ghost use Rattle.work_board.specs.Due.{until_due};
ghost use Rattle.work_board.specs.Seen.{observation_of};
ghost use Rattle.object_keys.specs.WorkKeys.{work_key_of};
ghost use Rattle.control_desk.specs.Calls.{IsCall, Nothing, after_give, once_ok};
ghost use Rattle.control_desk.specs.Desks.{known, key_in_hand, IsPassAt, IsHolding};
ghost use Rattle.control_desk.specs.Hands.{state};
ghost use Rattle.control_desk.specs.Steps.{changing, observe, add, tick};

use crate::desks::{ControlDesk, WorkPass};
use crate::entries::WorkEntry;
use crate::states::WorkState;
use crate::steps;
use baton::{EntryMade, Held};
use object_keys::WorkKey;
use spec_api::kinds::Kind;
use std::alloc::AllocError;
use std::marker::Brand;
use std::sync::Wait;
use work_board::Observation;

impl ControlDesk {
    /// Handles something of what is published of a kind at a revision, all in one step: notes what it shows of the pods that are expected,
    /// adds the keys that it owes, and notes that this is handled up to there. The error is running out of memory, and changes nothing.
    pub fn observe<R: Wait>(
        &self,
        rt: &R,
        pass: &mut WorkPass,
        kind: Kind,
        revision: u64,
        observations: &[Observation],
        keys: &[WorkKey],
    ) -> Result<(), AllocError>
        requires { IsPassAt self.now pass.old }
        ensures pass { IsPassAt self.now pass.new }
        ensures step { IsCall (known pass.old)
            (λ b. once_ok result (changing (observe kind revision (map observation_of observations.now) (map work_key_of keys.now)) b))
            Nothing (known pass.new) }
        ensures key { key_in_hand pass.new ≡ key_in_hand pass.old }
    {
        let held = self.take(rt, pass);
        self.observe_held::<Brand, R>(rt, pass, held, kind, revision, observations, keys)
    }

    /// Adds keys that nothing published owes, all in one step. The error is running out of memory, and changes nothing.
    pub fn add<R: Wait>(
        &self,
        rt: &R,
        pass: &mut WorkPass,
        keys: &[WorkKey],
    ) -> Result<(), AllocError>
        requires { IsPassAt self.now pass.old }
        ensures pass { IsPassAt self.now pass.new }
        ensures step { IsCall (known pass.old) (λ b. once_ok result (changing (add (map work_key_of keys.now)) b))
            Nothing (known pass.new) }
        ensures key { key_in_hand pass.new ≡ key_in_hand pass.old }
    {
        let held = self.take(rt, pass);
        self.add_held::<Brand, R>(rt, pass, held, keys)
    }

    /// Lets so many milliseconds pass, adds the keys whose moment has come, and returns true. Beyond the last moment, 2^53 - 1,
    /// nothing changes, and it returns false. The error is running out of memory, and changes nothing.
    pub fn tick<R: Wait>(
        &self,
        rt: &R,
        pass: &mut WorkPass,
        milliseconds: u64,
    ) -> Result<bool, AllocError>
        requires { IsPassAt self.now pass.old }
        ensures pass { IsPassAt self.now pass.new }
        ensures step { IsCall (known pass.old) (λ b. once_ok result (changing (tick milliseconds) b))
            (λ b. IfOk result (λ went. went ≡ may_tick milliseconds b.board)) (known pass.new) }
        ensures key { key_in_hand pass.new ≡ key_in_hand pass.old }
    {
        let held = self.take(rt, pass);
        self.tick_held::<Brand, R>(rt, pass, held, milliseconds)
    }

    /// Returns how many milliseconds pass at the board until the next key comes due, if one is delayed. The pass has then seen all that had
    /// happened. It takes no memory.
    pub fn until_due<R: Wait>(&self, rt: &R, pass: &mut WorkPass) -> Option<u64>
        requires { IsPassAt self.now pass.old }
        ensures pass { IsPassAt self.now pass.new }
        ensures step { IsCall (known pass.old) (λ b. None) (λ b. result ≡ until_due b.board) (known pass.new) }
        ensures key { key_in_hand pass.new ≡ key_in_hand pass.old }
    {
        let held = self.take(rt, pass);
        let left = held.get().board.until_due();
        self.give_back(rt, pass, held);
        left
    }

    /// Handles something on the board that the pass holds, and gives the board back.
    fn observe_held<M: EntryMade<WorkEntry>, R: Wait>(
        &self,
        rt: &R,
        pass: &mut WorkPass,
        held: Held<WorkState>,
        kind: Kind,
        revision: u64,
        observations: &[Observation],
        keys: &[WorkKey],
    ) -> Result<(), AllocError>
        requires pass { IsHolding self.now pass.old held }
        requires entry { M.entry
            ≡ changing (observe kind revision (map observation_of observations.now) (map work_key_of keys.now)) (state (known pass.old).seen) }
        ensures pass { IsPassAt self.now pass.new }
        ensures key { key_in_hand pass.new ≡ key_in_hand pass.old }
        ensures known { known pass.new ≡ after_give (known pass.old) (once_ok result M.entry) }
    {
        let mut held = held;
        match steps::observe(&mut held, kind, revision, observations, keys) {
            Ok(()) => {
                self.baton.give::<M, R>(rt, pass, held);
                Ok(())
            }
            Err(error) => {
                self.give_back(rt, pass, held);
                Err(error)
            }
        }
    }

    /// Adds keys on the board that the pass holds, and gives the board back.
    fn add_held<M: EntryMade<WorkEntry>, R: Wait>(
        &self,
        rt: &R,
        pass: &mut WorkPass,
        held: Held<WorkState>,
        keys: &[WorkKey],
    ) -> Result<(), AllocError>
        requires pass { IsHolding self.now pass.old held }
        requires entry { M.entry ≡ changing (add (map work_key_of keys.now)) (state (known pass.old).seen) }
        ensures pass { IsPassAt self.now pass.new }
        ensures key { key_in_hand pass.new ≡ key_in_hand pass.old }
        ensures known { known pass.new ≡ after_give (known pass.old) (once_ok result M.entry) }
    {
        let mut held = held;
        match steps::add(&mut held, keys) {
            Ok(()) => {
                self.baton.give::<M, R>(rt, pass, held);
                Ok(())
            }
            Err(error) => {
                self.give_back(rt, pass, held);
                Err(error)
            }
        }
    }

    /// Lets time pass on the board that the pass holds, and gives the board back.
    fn tick_held<M: EntryMade<WorkEntry>, R: Wait>(
        &self,
        rt: &R,
        pass: &mut WorkPass,
        held: Held<WorkState>,
        milliseconds: u64,
    ) -> Result<bool, AllocError>
        requires pass { IsHolding self.now pass.old held }
        requires entry { M.entry ≡ changing (tick milliseconds) (state (known pass.old).seen) }
        ensures pass { IsPassAt self.now pass.new }
        ensures went { IfOk result (λ went. went ≡ may_tick milliseconds (state (known pass.old).seen).board) }
        ensures key { key_in_hand pass.new ≡ key_in_hand pass.old }
        ensures known { known pass.new ≡ after_give (known pass.old) (once_ok result M.entry) }
    {
        let mut held = held;
        match steps::tick(&mut held, milliseconds) {
            Ok(went) => {
                self.baton.give::<M, R>(rt, pass, held);
                Ok(went)
            }
            Err(error) => {
                self.give_back(rt, pass, held);
                Err(error)
            }
        }
    }
}

//! A worker's turn at a desk, and how its passes meet.
ghost use Rattle.std.specs.Prelude.{◌≡◌, ◌≢◌, ◌<◌, None, Some, IfOk, OnOk, OnErr, All, is_some, length, map};
ghost use Rattle.baton.specs.Batons.{AreNumbered};
ghost use Rattle.baton.specs.Passes.{Met};
ghost use Rattle.work_board.specs.Seen.{observation_of};
ghost use Rattle.spec_client_go.specs.WorkQueues as queues;
ghost use Rattle.spec_client_go.specs.WorkQueues.{handed};
ghost use Rattle.object_keys.specs.WorkKeys.{work_key_of};
ghost use Rattle.control_desk.specs.Calls.{IsCall, HasTaken, Nothing, after_give, once_ok};
ghost use Rattle.control_desk.specs.Desks.{known, key_in_hand, IsPassAt, IsNewAt, IsHolding};
ghost use Rattle.control_desk.specs.Hands.{state, opened, IsBegun, MayFollow};
ghost use Rattle.control_desk.specs.Taken.{IsNext, key_taken};
ghost use Rattle.control_desk.specs.Steps.{state_after, changing, taking, finish, requeue};

use crate::desks::{ControlDesk, WorkPass};
use crate::entries::WorkEntry;
use crate::states::WorkState;
use crate::steps;
use crate::taken_key::TakenKey;
use baton::{Baton, EntryMade, Held};
use object_keys::{PerKind, WorkKey};
use std::alloc::{AllocError, Global};
use std::marker::Brand;
use std::sync::Wait;
use work_board::{Board, Observation};

/// Returns a board where nothing is to be done, of which nothing is handled.
fn opened(alloc: Global) -> WorkState
    ensures { result ≡ opened }
{
    WorkState {
        board: Board::new(alloc),
        handled: PerKind {
            config_maps: 0,
            pods: 0,
            replica_sets: 0,
            deployments: 0,
        },
    }
}

impl ControlDesk {
    /// Returns a desk over a board where nothing is to be done, and as many passes as asked for. The error is running out of memory.
    pub fn open(alloc: Global, count: usize) -> Result<(ControlDesk, Vec<WorkPass>), AllocError>
        requires { 0 < count }
        ensures passes { IfOk result (λ r. All (IsNewAt r.0) r.1.items) }
        ensures count { IfOk result (λ r. length r.1.items ≡ count) }
        ensures names { IfOk result (λ r. AreNumbered r.1.items) }
    {
        let (baton, passes) = Baton::open(alloc, opened(alloc), count)?;
        Ok((ControlDesk { baton }, passes))
    }

    /// Returns the key that waits longest, if one waits, which is then in the hands of the pass, and up to which revision of each kind
    /// what is published was handled. A pass takes a key only while it has none. The error is running out of memory, and takes nothing.
    pub fn take_key<R: Wait>(
        &self,
        rt: &R,
        pass: &mut WorkPass,
    ) -> Result<Option<TakenKey>, AllocError>
        requires pass { IsPassAt self.now pass.old }
        requires free { key_in_hand pass.old ≡ None }
        ensures pass { IsPassAt self.now pass.new }
        ensures step { IsCall (known pass.old) (λ b. once_ok result (taking b))
            (λ b. IfOk result (λ k. IsNext k b)) (known pass.new) }
        ensures key { IfOk result (λ k. key_in_hand pass.new ≡ key_taken k) }
        ensures none { OnErr result (key_in_hand pass.new ≡ None) }
    {
        let held = self.take(rt, pass);
        self.take_key_held::<Brand, R>(rt, pass, held)
    }

    /// Returns whether a key waits. The pass has then seen all that had happened.
    pub fn has_waiting<R: Wait>(&self, rt: &R, pass: &mut WorkPass) -> bool
        requires { IsPassAt self.now pass.old }
        ensures pass { IsPassAt self.now pass.new }
        ensures step { IsCall (known pass.old) (λ b. None) (λ b. result ≡ is_some (handed b.board.work)) (known pass.new) }
        ensures key { key_in_hand pass.new ≡ key_in_hand pass.old }
    {
        let held = self.take(rt, pass);
        let waits = held.get().board.first().is_some();
        self.give_back(rt, pass, held);
        waits
    }

    /// Gives back the key in the hands of the pass, and forgets its failures.
    pub fn done<R: Wait>(&self, rt: &R, pass: &mut WorkPass, key: &WorkKey)
        requires pass { IsPassAt self.now pass.old }
        requires mine { key_in_hand pass.old ≡ Some (work_key_of key.now) }
        ensures pass { IsPassAt self.now pass.new }
        ensures step { IsCall (known pass.old) (changing (finish (work_key_of key.now))) Nothing (known pass.new) }
        ensures key { key_in_hand pass.new ≡ None }
    {
        let held = self.take(rt, pass);
        self.done_held::<Brand, R>(rt, pass, held, key);
    }

    /// Gives back the key in the hands of the pass, which failed: it waits for its delay, and what was not done is expected no
    /// longer. The error is running out of memory, and gives nothing back: the key is still in the hands of the pass.
    pub fn requeue<R: Wait>(
        &self,
        rt: &R,
        pass: &mut WorkPass,
        key: &WorkKey,
        undone: &[Observation],
    ) -> Result<(), AllocError>
        requires pass { IsPassAt self.now pass.old }
        requires mine { key_in_hand pass.old ≡ Some (work_key_of key.now) }
        ensures pass { IsPassAt self.now pass.new }
        ensures step { IsCall (known pass.old)
            (λ b. once_ok result (changing (requeue (work_key_of key.now) (map observation_of undone.now) 0) b))
            Nothing (known pass.new) }
        ensures key { OnOk result (key_in_hand pass.new ≡ None) }
        ensures still { OnErr result (key_in_hand pass.new ≡ key_in_hand pass.old) }
    {
        self.requeue_after(rt, pass, key, undone, 0)
    }

    /// Gives back the key in the hands of the pass, which failed: it waits for its delay, and for at least so many milliseconds, and
    /// what was not done is expected no longer. Where a change adds the key meanwhile it is handed out before, and so is one that was
    /// delayed to an earlier moment. The error is running out of memory, and gives nothing back: the key is still in the hands of the
    /// pass.
    pub fn requeue_after<R: Wait>(
        &self,
        rt: &R,
        pass: &mut WorkPass,
        key: &WorkKey,
        undone: &[Observation],
        least: u32,
    ) -> Result<(), AllocError>
        requires pass { IsPassAt self.now pass.old }
        requires mine { key_in_hand pass.old ≡ Some (work_key_of key.now) }
        ensures pass { IsPassAt self.now pass.new }
        ensures step { IsCall (known pass.old)
            (λ b. once_ok result (changing (requeue (work_key_of key.now) (map observation_of undone.now) least) b))
            Nothing (known pass.new) }
        ensures key { OnOk result (key_in_hand pass.new ≡ None) }
        ensures still { OnErr result (key_in_hand pass.new ≡ key_in_hand pass.old) }
    {
        let held = self.take(rt, pass);
        self.requeue_held::<Brand, R>(rt, pass, held, key, undone, least)
    }

    /// Compares what two passes know of one another: one has seen all that the other has, and in it stands what both made. No key
    /// is in the hands of both. It waits for nobody and changes nothing.
    pub fn meet(&self, one: &mut WorkPass, other: &mut WorkPass)
        requires one { IsPassAt self.now one.old }
        requires other { IsPassAt self.now other.old }
        ensures passes { IsPassAt self.now one.new × IsPassAt self.now other.new }
        ensures one { known one.new ≡ known one.old }
        ensures other { known other.new ≡ known other.old }
        ensures met { Met IsBegun state_after MayFollow (known one.new) (known other.new) }
        ensures apart { (k : queues.WorkKey) → key_in_hand one.new ≡ Some k → key_in_hand other.new ≢ Some k }
    {
        self.baton.meet(one, other);
    }

    /// Takes the board. The pass learns all that has happened.
    pub(crate) fn take<R: Wait>(&self, rt: &R, pass: &mut WorkPass) -> Held<WorkState>
        requires { IsPassAt self.now pass.old }
        ensures holding { IsHolding self.now pass.new result }
        ensures taken { HasTaken (known pass.old) (known pass.new) }
    {
        self.baton.take(rt, pass)
    }

    /// Gives the board back as it was.
    pub(crate) fn give_back<R: Wait>(&self, rt: &R, pass: &mut WorkPass, held: Held<WorkState>)
        requires { IsHolding self.now pass.old held }
        ensures pass { IsPassAt self.now pass.new }
        ensures known { known pass.new ≡ after_give (known pass.old) None }
    {
        self.baton.give::<Brand, R>(rt, pass, held);
    }

    /// Takes a key from the board that the pass holds, and gives the board back.
    fn take_key_held<M: EntryMade<WorkEntry>, R: Wait>(
        &self,
        rt: &R,
        pass: &mut WorkPass,
        held: Held<WorkState>,
    ) -> Result<Option<TakenKey>, AllocError>
        requires pass { IsHolding self.now pass.old held }
        requires free { key_in_hand pass.old ≡ None }
        requires entry { M.entry ≡ taking (state (known pass.old).seen) }
        ensures pass { IsPassAt self.now pass.new }
        ensures next { IfOk result (λ k. IsNext k (state (known pass.old).seen)) }
        ensures key { IfOk result (λ k. key_in_hand pass.new ≡ key_taken k) }
        ensures none { OnErr result (key_in_hand pass.new ≡ None) }
        ensures known { known pass.new ≡ after_give (known pass.old) (once_ok result M.entry) }
    {
        let mut held = held;
        match steps::take_key(&mut held) {
            Ok(key) => {
                self.baton.give::<M, R>(rt, pass, held);
                Ok(key)
            }
            Err(error) => {
                self.give_back(rt, pass, held);
                Err(error)
            }
        }
    }

    /// Gives a key back to the board that the pass holds, and gives the board back.
    fn done_held<M: EntryMade<WorkEntry>, R: Wait>(
        &self,
        rt: &R,
        pass: &mut WorkPass,
        held: Held<WorkState>,
        key: &WorkKey,
    )
        requires pass { IsHolding self.now pass.old held }
        requires mine { key_in_hand pass.old ≡ Some (work_key_of key.now) }
        requires entry { M.entry ≡ changing (finish (work_key_of key.now)) (state (known pass.old).seen) }
        ensures pass { IsPassAt self.now pass.new }
        ensures key { key_in_hand pass.new ≡ None }
        ensures known { known pass.new ≡ after_give (known pass.old) M.entry }
    {
        let mut held = held;
        steps::done(&mut held, key);
        self.baton.give::<M, R>(rt, pass, held);
    }

    /// Gives a key that failed back to the board that the pass holds, and gives the board back.
    fn requeue_held<M: EntryMade<WorkEntry>, R: Wait>(
        &self,
        rt: &R,
        pass: &mut WorkPass,
        held: Held<WorkState>,
        key: &WorkKey,
        undone: &[Observation],
        least: u32,
    ) -> Result<(), AllocError>
        requires pass { IsHolding self.now pass.old held }
        requires mine { key_in_hand pass.old ≡ Some (work_key_of key.now) }
        requires entry { M.entry
            ≡ changing (requeue (work_key_of key.now) (map observation_of undone.now) least) (state (known pass.old).seen) }
        ensures pass { IsPassAt self.now pass.new }
        ensures key { OnOk result (key_in_hand pass.new ≡ None) }
        ensures still { OnErr result (key_in_hand pass.new ≡ key_in_hand pass.old) }
        ensures known { known pass.new ≡ after_give (known pass.old) (once_ok result M.entry) }
    {
        let mut held = held;
        match steps::requeue(&mut held, key, undone, least) {
            Ok(()) => {
                self.baton.give::<M, R>(rt, pass, held);
                Ok(())
            }
            Err(error) => {
                self.give_back(rt, pass, held);
                Err(error)
            }
        }
    }
}

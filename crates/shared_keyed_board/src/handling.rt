//! How a board opens, and what is handled at it: keys that are added, time that passes, the shut-down; and how its passes meet.
ghost use Rattle.std.specs.Prelude.{◌≡◌, ◌≢◌, ◌∷◌, ◌<◌, [], Some, IfOk, All, length, map};
ghost use Rattle.baton.specs.Batons.{AreNumbered};
ghost use Rattle.keyed_board.specs.Steps as said_steps;
ghost use Rattle.shared_keyed_board.specs.Calls.{IsCall, Nothing, once_ok, HaveMet};
ghost use Rattle.shared_keyed_board.specs.Entries.{IsBegun, Follows, latest};
ghost use Rattle.shared_keyed_board.specs.Passes.{sight, known, key_in_hand, IsPassAt, IsNewAt};

use crate::boards::{BoardPass, SharedKeyedBoard};
use crate::doing::{Doing, KeyDoing};
use crate::steps;
use baton::Baton;
use keyed_board::KeyedBoard;
use keyed_queues::Named;
use std::alloc::{AllocError, Global};
use std::sync::Wait;
use wakeups::Bell;

impl<K: Named> SharedKeyedBoard<K> {
    /// Returns a board on which nothing waits, and as many passes as asked for. The error is running out of memory.
    pub fn open(
        alloc: Global,
        count: usize,
    ) -> Result<(SharedKeyedBoard<K>, Vec<BoardPass<K>>), AllocError>
        requires { 0 < count }
        ensures passes { IfOk result (λ r. All (IsNewAt r.0) r.1.items) }
        ensures count { IfOk result (λ r. length r.1.items ≡ count) }
        ensures names { IfOk result (λ r. AreNumbered r.1.items) }
    {
        let (baton, passes) = Baton::open(alloc, KeyedBoard::new(alloc), count)?;
        let board = SharedKeyedBoard {
            baton,
            keys: Bell::new(),
            delays: Bell::new(),
        };
        Ok((board, passes))
    }

    /// Adds a key: it waits once, however often it is added, and a key in a worker's hands waits until it is given back. The error is
    /// running out of memory, and adds nothing.
    pub fn add<R: Wait>(&self, rt: &R, pass: &mut BoardPass<K>, key: &K) -> Result<(), AllocError>
        requires { IsPassAt self.now pass.old }
        ensures pass { IsPassAt self.now pass.new }
        ensures step { IsCall K.order (sight K.says pass.old)
            (λ b. once_ok result (Some (said_steps.add (K.says key.now ∷ [])))) Nothing (sight K.says pass.new) }
        ensures key { key_in_hand K.says pass.new ≡ key_in_hand K.says pass.old }
    {
        let mut held = self.hold(rt, pass);
        match steps::add(&mut held, key) {
            Ok(()) => {
                self.note_key(rt, pass, held, key, KeyDoing::Adds);
                self.keys.ring();
                Ok(())
            }
            Err(error) => {
                self.note(rt, pass, held, &[], Doing::Nothing);
                Err(error)
            }
        }
    }

    /// Adds keys one after another, as `add` does, all in one step. The error is running out of memory, and adds none.
    pub fn add_all<R: Wait>(
        &self,
        rt: &R,
        pass: &mut BoardPass<K>,
        keys: &[K],
    ) -> Result<(), AllocError>
        requires { IsPassAt self.now pass.old }
        ensures pass { IsPassAt self.now pass.new }
        ensures step { IsCall K.order (sight K.says pass.old)
            (λ b. once_ok result (Some (said_steps.add (map K.says keys.now)))) Nothing (sight K.says pass.new) }
        ensures key { key_in_hand K.says pass.new ≡ key_in_hand K.says pass.old }
    {
        let mut held = self.hold(rt, pass);
        match steps::add_all(&mut held, keys) {
            Ok(()) => {
                self.note(rt, pass, held, keys, Doing::Adds);
                self.keys.ring();
                Ok(())
            }
            Err(error) => {
                self.note(rt, pass, held, &[], Doing::Nothing);
                Err(error)
            }
        }
    }

    /// Adds a key when so many milliseconds have passed at the board. A key that is delayed twice keeps the earlier moment. The error is
    /// running out of memory, and changes nothing.
    pub fn add_after<R: Wait>(
        &self,
        rt: &R,
        pass: &mut BoardPass<K>,
        key: &K,
        milliseconds: u64,
    ) -> Result<(), AllocError>
        requires { IsPassAt self.now pass.old }
        ensures pass { IsPassAt self.now pass.new }
        ensures step { IsCall K.order (sight K.says pass.old)
            (λ b. once_ok result (Some (said_steps.add_after (K.says key.now) milliseconds))) Nothing (sight K.says pass.new) }
        ensures key { key_in_hand K.says pass.new ≡ key_in_hand K.says pass.old }
    {
        let mut held = self.hold(rt, pass);
        match steps::add_after(&mut held, key, milliseconds) {
            Ok(()) => {
                self.note_key(rt, pass, held, key, KeyDoing::AddsAfter(milliseconds));
                self.delays.ring();
                Ok(())
            }
            Err(error) => {
                self.note(rt, pass, held, &[], Doing::Nothing);
                Err(error)
            }
        }
    }

    /// Sets what moment it is at the board, in milliseconds, unless it is later there, and adds the keys whose moment has come. The error
    /// is running out of memory, and changes nothing.
    pub fn tick<R: Wait>(&self, rt: &R, pass: &mut BoardPass<K>, now: u64) -> Result<(), AllocError>
        requires { IsPassAt self.now pass.old }
        ensures pass { IsPassAt self.now pass.new }
        ensures step { IsCall K.order (sight K.says pass.old)
            (λ b. once_ok result (Some (said_steps.tick now))) Nothing (sight K.says pass.new) }
        ensures key { key_in_hand K.says pass.new ≡ key_in_hand K.says pass.old }
    {
        let mut held = self.hold(rt, pass);
        match steps::tick(&mut held, now) {
            Ok(()) => {
                let waits = held.get().first().is_some();
                self.note(rt, pass, held, &[], Doing::Ticks(now));
                self.ring_if(waits);
                Ok(())
            }
            Err(error) => {
                self.note(rt, pass, held, &[], Doing::Nothing);
                Err(error)
            }
        }
    }

    /// Wakes who waits for a key, if one waits.
    pub(crate) fn ring_if(&self, waits: bool) {
        if waits {
            self.keys.ring();
        }
    }

    /// Shuts the board down: from now on nothing is added; what waits is still handed out, and who waits for a key where none waits wakes.
    /// It takes no memory.
    pub fn shut_down<R: Wait>(&self, rt: &R, pass: &mut BoardPass<K>)
        requires { IsPassAt self.now pass.old }
        ensures pass { IsPassAt self.now pass.new }
        ensures step { IsCall K.order (sight K.says pass.old)
            (λ b. Some said_steps.shut_down) Nothing (sight K.says pass.new) }
        ensures key { key_in_hand K.says pass.new ≡ key_in_hand K.says pass.old }
    {
        let mut held = self.hold(rt, pass);
        steps::shut_down(&mut held);
        self.note(rt, pass, held, &[], Doing::ShutsDown);
        self.keys.ring();
        self.delays.ring();
    }

    /// Compares what two passes know of one another: one has seen all that the other has, and in that history the steps of both are just those that
    /// they made. No key is in the hands of both. It waits for nobody and changes nothing.
    pub fn meet(&self, one: &mut BoardPass<K>, other: &mut BoardPass<K>)
        requires one { IsPassAt self.now one.old }
        requires other { IsPassAt self.now other.old }
        ensures passes { IsPassAt self.now one.new × IsPassAt self.now other.new }
        ensures one { sight K.says one.new ≡ sight K.says one.old }
        ensures other { sight K.says other.new ≡ sight K.says other.old }
        ensures met { HaveMet K.order (sight K.says one.new) (sight K.says other.new) }
        ensures apart { (k : K.Name) → key_in_hand K.says one.new ≡ Some k → key_in_hand K.says other.new ≢ Some k }
    {
        self.baton.meet(one, other);
    }
}

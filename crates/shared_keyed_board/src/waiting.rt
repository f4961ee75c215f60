//! Waits for keys.
ghost use Rattle.std.specs.Prelude.{◌≡◌, None, IfOk, OnErr, option_map, true};
ghost use Rattle.keyed_board.specs.Boards.{until_due};
ghost use Rattle.keyed_queues.specs.Queues.{handed};
ghost use Rattle.shared_keyed_board.specs.Calls.{IsCall, once_ok, taking};
ghost use Rattle.shared_keyed_board.specs.Passes.{sight, key_in_hand, IsPassAt};

use crate::attempt::Attempt;
use crate::boards::{BoardPass, SharedKeyedBoard};
use crate::hands::KeyInHand;
use keyed_queues::Named;
use std::alloc::AllocError;
use std::sync::Wait;
use std::time::Clock;

/// How many milliseconds a thread sleeps at most before it looks again. Each change wakes who has to see it, so this is for safety alone.
const LONGEST_SLEEP: u64 = 60_000;

impl<K: Named> SharedKeyedBoard<K> {
    /// Returns the key that waits longest, which is then in the hands of the pass, and sleeps while none waits; `None` where none waits
    /// and the board is shut down. A pass takes a key only while it has none. The error is running out of memory, and takes nothing.
    ///
    /// Who sleeps is woken by an add, by a tick that brings a key due, by a key that is given back and waits again, and by the shut-down:
    /// each of them rings after it gave the board back, and who sleeps has read the count of rings before it looked at the board. No
    /// clause says so; tests show it.
    pub fn take<R: Wait + Clock>(
        &self,
        rt: &R,
        pass: &mut BoardPass<K>,
    ) -> Result<Option<KeyInHand<K>>, AllocError>
        requires pass { IsPassAt self.now pass.old }
        requires free { key_in_hand K.says pass.old ≡ None }
        ensures pass { IsPassAt self.now pass.new }
        ensures step { IsCall K.order (sight K.says pass.old) (λ b. once_ok result (taking b))
            (λ b. IfOk result (λ h. (option_map K.says h ≡ handed b.work) × (h ≡ None → b.work.is_shut ≡ true))) (sight K.says pass.new) }
        ensures key { IfOk result (λ h. key_in_hand K.says pass.new ≡ option_map K.says h) }
        ensures none { OnErr result (key_in_hand K.says pass.new ≡ None) }
    {
        for _ in rt.forever() {
            let seen = self.keys.count();
            match self.attempt(rt, pass) {
                Ok(Attempt::Taken(hand)) => return Ok(Some(hand)),
                Ok(Attempt::ShutDown) => return Ok(None),
                Ok(Attempt::NoneWaits) => {
                    let _ = self.keys.wait(rt, seen, LONGEST_SLEEP);
                }
                Err(error) => return Err(error),
            }
        }
        unreachable!()
    }

    /// Returns how many milliseconds pass at the board until the next key comes due, if one is delayed. The pass has then seen all that
    /// had happened. It takes no memory.
    pub fn until_due<R: Wait>(&self, rt: &R, pass: &mut BoardPass<K>) -> Option<u64>
        requires { IsPassAt self.now pass.old }
        ensures pass { IsPassAt self.now pass.new }
        ensures step { IsCall K.order (sight K.says pass.old) (λ b. None) (λ b. result ≡ until_due b) (sight K.says pass.new) }
        ensures key { key_in_hand K.says pass.new ≡ key_in_hand K.says pass.old }
    {
        let held = self.hold(rt, pass);
        let left = held.get().until_due();
        self.give_back(rt, pass, held);
        left
    }

    /// Returns whether the board is shut down, and unless it is sleeps until the next key comes due, by the clock of the machine. A key
    /// that is delayed meanwhile wakes who sleeps, and so does the shut-down: who lets time pass at a board ticks and rests in turn, and
    /// never ticks idly.
    pub fn rest_until_due<R: Wait + Clock>(&self, rt: &R, pass: &mut BoardPass<K>) -> bool
        requires { IsPassAt self.now pass.old }
        ensures pass { IsPassAt self.now pass.new }
        ensures step { IsCall K.order (sight K.says pass.old) (λ b. None) (λ b. result ≡ b.work.is_shut) (sight K.says pass.new) }
        ensures key { key_in_hand K.says pass.new ≡ key_in_hand K.says pass.old }
    {
        let seen = self.delays.count();
        let held = self.hold(rt, pass);
        let is_shut = held.get().is_shut();
        let rest = held.get().until_due().unwrap_or(LONGEST_SLEEP);
        self.give_back(rt, pass, held);
        if !is_shut {
            let _ = self.delays.wait(rt, seen, rest.min(LONGEST_SLEEP));
        }
        is_shut
    }
}

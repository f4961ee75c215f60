//! A worker's turn at a board.
ghost use Rattle.std.specs.Prelude.{◌≡◌, None, Some, IfOk, IfErr, OnOk, OnErr, option_map};
ghost use Rattle.keyed_board.specs.Boards as boards;
ghost use Rattle.keyed_board.specs.Said.{said};
ghost use Rattle.keyed_board.specs.Steps as said_steps;
ghost use Rattle.keyed_board.specs.declared.outcome.Outcome.TheVariants.{Done};
ghost use Rattle.keyed_queues.specs.Queues.{handed};
ghost use Rattle.shared_keyed_board.specs.Attempts.{Attempts, key_taken};
ghost use Rattle.shared_keyed_board.specs.Calls.{IsCall, Nothing, once_ok, taking, having_seen};
ghost use Rattle.shared_keyed_board.specs.Histories.{board, hand};
ghost use Rattle.shared_keyed_board.specs.Passes.{sight, key_in_hand, IsPassAt, HasBoard};

use crate::attempt::Attempt;
use crate::boards::{BoardPass, SharedKeyedBoard};
use crate::doing::{Doing, KeyDoing};
use crate::hands::KeyInHand;
use crate::steps;
use baton::Held;
use keyed_board::{KeyedBoard, Outcome};
use keyed_queues::Named;
use std::alloc::AllocError;
use std::sync::Wait;

impl<K: Named> SharedKeyedBoard<K> {
    /// Returns the key that waits longest, if one waits, which is then in the hands of the pass. A pass takes a key only while it
    /// has none. The error is running out of memory, and takes nothing.
    pub fn try_take<R: Wait>(
        &self,
        rt: &R,
        pass: &mut BoardPass<K>,
    ) -> Result<Option<KeyInHand<K>>, AllocError>
        requires pass { IsPassAt self.now pass.old }
        requires free { key_in_hand K.says pass.old ≡ None }
        ensures pass { IsPassAt self.now pass.new }
        ensures step { IsCall K.order (sight K.says pass.old) (λ b. once_ok result (taking b))
            (λ b. IfOk result (λ h. option_map K.says h ≡ handed b.work)) (sight K.says pass.new) }
        ensures key { IfOk result (λ h. key_in_hand K.says pass.new ≡ option_map K.says h) }
        ensures none { OnErr result (key_in_hand K.says pass.new ≡ None) }
    {
        match self.attempt(rt, pass) {
            Ok(attempt) => Ok(attempt.into_hand()),
            Err(error) => Err(error),
        }
    }

    /// Takes the key that waits longest, if one waits.
    pub(crate) fn attempt<R: Wait>(
        &self,
        rt: &R,
        pass: &mut BoardPass<K>,
    ) -> Result<Attempt<K>, AllocError>
        requires pass { IsPassAt self.now pass.old }
        requires free { key_in_hand K.says pass.old ≡ None }
        ensures pass { IsPassAt self.now pass.new }
        ensures step { IsCall K.order (sight K.says pass.old) (λ b. once_ok result (taking b))
            (λ b. IfOk result (Attempts K.says b)) (sight K.says pass.new) }
        ensures key { IfOk result (λ a. key_in_hand K.says pass.new ≡ option_map K.says (key_taken a)) }
        ensures none { OnErr result (key_in_hand K.says pass.new ≡ None) }
    {
        let mut held = self.hold(rt, pass);
        let is_shut = held.get().is_shut();
        match steps::take(&mut held) {
            Ok(taken) => Ok(self.note_taken(rt, pass, held, taken, is_shut)),
            Err(error) => {
                self.note(rt, pass, held, &[], Doing::Nothing);
                Err(error)
            }
        }
    }

    /// Gives the board back after a key was taken from it, or none waited.
    fn note_taken<R: Wait>(
        &self,
        rt: &R,
        pass: &mut BoardPass<K>,
        held: Held<KeyedBoard<K>>,
        taken: Option<K>,
        is_shut: bool,
    ) -> Attempt<K>
        requires pass { HasBoard K.order K.says self.now pass.old }
        requires free { hand (sight K.says pass.old).seen (sight K.says pass.old).name ≡ None }
        requires board { said K.order K.says held ≡ boards.taken (board K.order (sight K.says pass.old).seen) }
        requires key { option_map K.says taken ≡ handed (board K.order (sight K.says pass.old).seen).work }
        requires shut { is_shut ≡ (board K.order (sight K.says pass.old).seen).work.is_shut }
        ensures pass { IsPassAt self.now pass.new }
        ensures attempt { Attempts K.says (board K.order (sight K.says pass.old).seen) result }
        ensures sight { sight K.says pass.new
            ≡ having_seen (sight K.says pass.old) (sight K.says pass.old).seen (option_map said_steps.take (option_map K.says (key_taken result))) }
    {
        match taken {
            Some(key) => {
                self.note_key(rt, pass, held, &key, KeyDoing::Takes);
                Attempt::Taken(KeyInHand::new(key))
            }
            None => {
                self.note(rt, pass, held, &[], Doing::Nothing);
                Attempt::none(is_shut)
            }
        }
    }

    /// Gives back the key in the hands of the pass, and forgets its failures. It takes no memory.
    pub fn done<R: Wait>(&self, rt: &R, pass: &mut BoardPass<K>, hand: KeyInHand<K>)
        requires pass { IsPassAt self.now pass.old }
        requires mine { key_in_hand K.says pass.old ≡ Some (K.says hand) }
        ensures pass { IsPassAt self.now pass.new }
        ensures step { IsCall K.order (sight K.says pass.old)
            (λ b. Some (said_steps.finish (K.says hand) Done)) Nothing (sight K.says pass.new) }
        ensures key { key_in_hand K.says pass.new ≡ None }
    {
        let key = hand.key();
        let mut held = self.hold(rt, pass);
        steps::done(&mut held, key);
        let waits = held.get().first().is_some();
        self.note_key(rt, pass, held, key, KeyDoing::Finishes(Outcome::Done));
        hand.let_go();
        self.ring_if(waits);
    }

    /// Gives back the key in the hands of the pass. Unless all is done it is added again after a while: as long as the worker says, or
    /// after a failure 5 milliseconds, twice as long after each that follows, and at most 1,000 seconds; and no sooner than a server asks
    /// that refused it. The error is running out of memory, and gives nothing back: the key is still in the hands of the pass.
    pub fn finish<R: Wait>(
        &self,
        rt: &R,
        pass: &mut BoardPass<K>,
        hand: KeyInHand<K>,
        outcome: Outcome,
    ) -> Result<(), KeyInHand<K>>
        requires pass { IsPassAt self.now pass.old }
        requires mine { key_in_hand K.says pass.old ≡ Some (K.says hand) }
        ensures pass { IsPassAt self.now pass.new }
        ensures step { IsCall K.order (sight K.says pass.old)
            (λ b. once_ok result (Some (said_steps.finish (K.says hand) outcome))) Nothing (sight K.says pass.new) }
        ensures ok { OnOk result (key_in_hand K.says pass.new ≡ None) }
        ensures still { IfErr result (λ back. (back ≡ hand) × (key_in_hand K.says pass.new ≡ key_in_hand K.says pass.old)) }
    {
        let key = hand.key();
        let mut held = self.hold(rt, pass);
        match steps::finish(&mut held, key, outcome) {
            Ok(()) => {
                let waits = held.get().first().is_some();
                self.note_key(rt, pass, held, key, KeyDoing::Finishes(outcome));
                hand.let_go();
                self.ring_if(waits);
                self.delays.ring();
                Ok(())
            }
            Err(_) => {
                self.note(rt, pass, held, &[], Doing::Nothing);
                Err(hand)
            }
        }
    }
}

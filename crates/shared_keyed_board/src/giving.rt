//! How a pass takes the board, and gives it back.
ghost use Rattle.std.specs.Prelude.{◌≡◌, Some, option_map};
ghost use Rattle.keyed_board.specs.Said.{said};
ghost use Rattle.keyed_board.specs.Steps.{after};
ghost use Rattle.shared_keyed_board.specs.Attempts.{step_done, key_step};
ghost use Rattle.shared_keyed_board.specs.Calls.{HasLooked, having_seen};
ghost use Rattle.shared_keyed_board.specs.Entries.{step_said, left_by};
ghost use Rattle.shared_keyed_board.specs.Histories.{board, MayFollow};
ghost use Rattle.shared_keyed_board.specs.Passes.{sight, IsPassAt, HasBoard, IsBoard};

use crate::boards::{BoardPass, SharedKeyedBoard};
use crate::doing::{Doing, KeyDoing};
use crate::entries::BoardEntry;
use baton::{EntryMade, Held};
use keyed_board::KeyedBoard;
use keyed_queues::Named;
use std::marker::Brand;
use std::sync::Wait;

impl<K: Named> SharedKeyedBoard<K> {
    /// Takes the board. The pass learns all that has happened.
    pub(crate) fn hold<R: Wait>(&self, rt: &R, pass: &mut BoardPass<K>) -> Held<KeyedBoard<K>>
        requires { IsPassAt self.now pass.old }
        ensures pass { HasBoard K.order K.says self.now pass.new }
        ensures board { IsBoard K.order K.says pass.new result }
        ensures looked { HasLooked K.order (sight K.says pass.old) (sight K.says pass.new) }
    {
        self.baton.take(rt, pass)
    }

    /// Gives the board back as it was.
    pub(crate) fn give_back<R: Wait>(
        &self,
        rt: &R,
        pass: &mut BoardPass<K>,
        held: Held<KeyedBoard<K>>,
    )
        requires pass { HasBoard K.order K.says self.now pass.old }
        requires board { IsBoard K.order K.says pass.old held }
        ensures pass { IsPassAt self.now pass.new }
        ensures sight { sight K.says pass.new ≡ sight K.says pass.old }
    {
        self.baton.give::<Brand, R>(rt, pass, held);
    }

    /// Gives the board back after what was done to it with these keys.
    pub(crate) fn note<R: Wait>(
        &self,
        rt: &R,
        pass: &mut BoardPass<K>,
        held: Held<KeyedBoard<K>>,
        keys: &[K],
        doing: Doing,
    )
        requires pass { HasBoard K.order K.says self.now pass.old }
        requires board { said K.order K.says held
            ≡ left_by (board K.order (sight K.says pass.old).seen) (option_map (step_said K.says) (step_done doing keys.now)) }
        ensures pass { IsPassAt self.now pass.new }
        ensures sight { sight K.says pass.new
            ≡ having_seen (sight K.says pass.old) (sight K.says pass.old).seen (option_map (step_said K.says) (step_done doing keys.now)) }
    {
        self.note_as::<Brand, R>(rt, pass, held, keys, doing);
    }

    /// Gives the board back with an entry of what was done to it.
    fn note_as<M: EntryMade<BoardEntry<K>>, R: Wait>(
        &self,
        rt: &R,
        pass: &mut BoardPass<K>,
        held: Held<KeyedBoard<K>>,
        _keys: &[K],
        _doing: Doing,
    )
        requires pass { HasBoard K.order K.says self.now pass.old }
        requires board { said K.order K.says held
            ≡ left_by (board K.order (sight K.says pass.old).seen) (option_map (step_said K.says) (step_done _doing _keys.now)) }
        requires entry { M.entry ≡ Some (record { step = step_done _doing _keys.now; board = held }) }
        ensures pass { IsPassAt self.now pass.new }
        ensures sight { sight K.says pass.new
            ≡ having_seen (sight K.says pass.old) (sight K.says pass.old).seen (option_map (step_said K.says) (step_done _doing _keys.now)) }
    {
        self.baton.give::<M, R>(rt, pass, held);
    }

    /// Gives the board back after what was done to it with a key.
    pub(crate) fn note_key<R: Wait>(
        &self,
        rt: &R,
        pass: &mut BoardPass<K>,
        held: Held<KeyedBoard<K>>,
        key: &K,
        doing: KeyDoing,
    )
        requires pass { HasBoard K.order K.says self.now pass.old }
        requires board { said K.order K.says held
            ≡ after (board K.order (sight K.says pass.old).seen) (step_said K.says (key_step doing key.now)) }
        requires may { MayFollow K.order (sight K.says pass.old).seen (sight K.says pass.old).name (step_said K.says (key_step doing key.now)) }
        ensures pass { IsPassAt self.now pass.new }
        ensures sight { sight K.says pass.new
            ≡ having_seen (sight K.says pass.old) (sight K.says pass.old).seen (Some (step_said K.says (key_step doing key.now))) }
    {
        self.note_key_as::<Brand, R>(rt, pass, held, key, doing);
    }

    /// Gives the board back with an entry of what was done to it with a key.
    fn note_key_as<M: EntryMade<BoardEntry<K>>, R: Wait>(
        &self,
        rt: &R,
        pass: &mut BoardPass<K>,
        held: Held<KeyedBoard<K>>,
        _key: &K,
        _doing: KeyDoing,
    )
        requires pass { HasBoard K.order K.says self.now pass.old }
        requires board { said K.order K.says held
            ≡ after (board K.order (sight K.says pass.old).seen) (step_said K.says (key_step _doing _key.now)) }
        requires may { MayFollow K.order (sight K.says pass.old).seen (sight K.says pass.old).name (step_said K.says (key_step _doing _key.now)) }
        requires entry { M.entry ≡ Some (record { step = Some (key_step _doing _key.now); board = held }) }
        ensures pass { IsPassAt self.now pass.new }
        ensures sight { sight K.says pass.new
            ≡ having_seen (sight K.says pass.old) (sight K.says pass.old).seen (Some (step_said K.says (key_step _doing _key.now))) }
    {
        self.baton.give::<M, R>(rt, pass, held);
    }
}

//! The steps of a board that a pass holds.
ghost use Rattle.std.specs.Prelude.{◌≡◌, ◌∷◌, [], IfOk, OnOk, OnErr, map, option_map};
ghost use Rattle.keyed_queues.specs.Queues.{handed};
ghost use Rattle.keyed_board.specs.Boards.{with_keys, postponed, taken, finished, ticked, shut_off};
ghost use Rattle.keyed_board.specs.Said.{said};
ghost use Rattle.keyed_board.specs.declared.outcome.Outcome.TheVariants.{Done};

use baton::Held;
use keyed_board::{KeyedBoard, Outcome};
use keyed_queues::Named;
use std::alloc::AllocError;

/// Adds a key.
pub(crate) fn add<K: Named>(held: &mut Held<KeyedBoard<K>>, key: &K) -> Result<(), AllocError>
    ensures ok { OnOk result (said K.order K.says held.new ≡ with_keys (K.says key.now ∷ []) (said K.order K.says held.old)) }
    ensures err { OnErr result (said K.order K.says held.new ≡ said K.order K.says held.old) }
{
    held.get_mut().add(key.try_copy()?)
}

/// Adds keys one after another.
pub(crate) fn add_all<K: Named>(
    held: &mut Held<KeyedBoard<K>>,
    keys: &[K],
) -> Result<(), AllocError>
    ensures ok { OnOk result (said K.order K.says held.new ≡ with_keys (map K.says keys.now) (said K.order K.says held.old)) }
    ensures err { OnErr result (said K.order K.says held.new ≡ said K.order K.says held.old) }
{
    held.get_mut().add_all(keys)
}

/// Adds a key after so many milliseconds.
pub(crate) fn add_after<K: Named>(
    held: &mut Held<KeyedBoard<K>>,
    key: &K,
    milliseconds: u64,
) -> Result<(), AllocError>
    ensures ok { OnOk result (said K.order K.says held.new ≡ postponed (K.says key.now) milliseconds (said K.order K.says held.old)) }
    ensures err { OnErr result (said K.order K.says held.new ≡ said K.order K.says held.old) }
{
    held.get_mut().add_after(key.try_copy()?, milliseconds)
}

/// Hands the key that waits longest to a worker, if one waits.
pub(crate) fn take<K: Named>(held: &mut Held<KeyedBoard<K>>) -> Result<Option<K>, AllocError>
    ensures ok { OnOk result (said K.order K.says held.new ≡ taken (said K.order K.says held.old)) }
    ensures key { IfOk result (λ k. option_map K.says k ≡ handed (said K.order K.says held.old).work) }
    ensures err { OnErr result (said K.order K.says held.new ≡ said K.order K.says held.old) }
{
    held.get_mut().take()
}

/// Takes a key back from its worker, and forgets its failures.
pub(crate) fn done<K: Named>(held: &mut Held<KeyedBoard<K>>, key: &K)
    ensures { said K.order K.says held.new ≡ finished (K.says key.now) Done (said K.order K.says held.old) }
{
    held.get_mut().done(key);
}

/// Takes a key back from its worker.
pub(crate) fn finish<K: Named>(
    held: &mut Held<KeyedBoard<K>>,
    key: &K,
    outcome: Outcome,
) -> Result<(), AllocError>
    ensures ok { OnOk result (said K.order K.says held.new ≡ finished (K.says key.now) outcome (said K.order K.says held.old)) }
    ensures err { OnErr result (said K.order K.says held.new ≡ said K.order K.says held.old) }
{
    held.get_mut().finish(key, outcome)
}

/// Sets what moment it is, unless it is later, and adds the keys whose moment has come.
pub(crate) fn tick<K: Named>(held: &mut Held<KeyedBoard<K>>, now: u64) -> Result<(), AllocError>
    ensures ok { OnOk result (said K.order K.says held.new ≡ ticked now (said K.order K.says held.old)) }
    ensures err { OnErr result (said K.order K.says held.new ≡ said K.order K.says held.old) }
{
    held.get_mut().tick(now)
}

/// Shuts the board down.
pub(crate) fn shut_down<K: Named>(held: &mut Held<KeyedBoard<K>>)
    ensures { said K.order K.says held.new ≡ shut_off (said K.order K.says held.old) }
{
    held.get_mut().shut_down();
}

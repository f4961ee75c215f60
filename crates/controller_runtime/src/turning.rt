//! A worker's turns, one after another.
ghost use Rattle.std.specs.Prelude.{◌≡◌, OnErr, OnOk};
ghost use Rattle.controller_runtime.specs.Runs.{IsAtWork, IsBack};

use crate::means::Means;
use crate::signs::{Listed, Over};
use api_client::Api;
use keyed_queues::Named;
use reconciler::Reconciler;
use shared_keyed_board::{BoardPass, SharedKeyedBoard};
use std::sync::Wait;
use std::time::Clock;

/// Takes a key, and reconciles it, and returns whether more may come: none does once the board is shut down. It sleeps while no key waits.
fn next<R: Wait + Clock, C: Reconciler<K>, K: Named, A: Api + Drop>(
    board: &SharedKeyedBoard<K>,
    pass: &mut BoardPass<K>,
    means: &mut Means<'_, R, C, A>,
) -> Result<bool, Over>
    requires { IsAtWork C.owes C.ends K.says board.now pass.old }
    ensures goes_on { OnOk result (IsAtWork C.owes C.ends K.says board.now pass.new) }
    ensures over { OnErr result (IsBack C.owes C.ends K.says board.now pass.new) }
{
    match board.take(means.rt, pass) {
        Ok(Some(hand)) => {
            means.turn(board, pass, hand)?;
            Ok(true)
        }
        Ok(None) => Ok(false),
        Err(_) => {
            means.rest()?;
            Ok(true)
        }
    }
}

/// Takes one key after another until the board is shut down, and reconciles each, now that the first lists are published.
pub(crate) fn work<R: Wait + Clock, C: Reconciler<K>, K: Named, A: Api + Drop>(
    board: &SharedKeyedBoard<K>,
    pass: &mut BoardPass<K>,
    means: &mut Means<'_, R, C, A>,
    listed: &Listed,
) -> Result<(), Over>
    requires pass { IsAtWork C.owes C.ends K.says board.now pass.old }
    requires listed { listed.now.kinds ≡ means.old.under_way.now.kinds }
    ensures { IsBack C.owes C.ends K.says board.now pass.new }
{
    for _ in means.rt.forever() {
        if !next(board, pass, means)? {
            return Ok(());
        }
    }
    unreachable!()
}

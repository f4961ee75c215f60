//! What a run has done, as one history of its board.
ghost use Rattle.std.specs.Prelude.{OnOk, All};
ghost use Rattle.shared_keyed_board.specs.Passes.{IsPassAt, known, sight};
ghost use Rattle.controller_runtime.specs.Runs.{IsBack, IsOfRun};

use keyed_queues::Named;
use reconciler::Reconciler;
use shared_keyed_board::{BoardPass, SharedKeyedBoard};
use std::alloc::{AllocError, Global};
use std::sync::Wait;

/// Has a pass of the caller's see all that the passes of a run have seen, once they have come back from `run_at_board`. What it has seen then is a
/// history of the board, of which the laws of `shared_keyed_board` speak; in it each pass of the run made steps of a run and no others, and has no
/// key in its hand. The error is running out of memory: it can be tried again.
pub fn look_back<R: Wait, K: Named, C: Reconciler<K>>(
    rt: &R,
    alloc: Global,
    _controller: &C,
    board: &SharedKeyedBoard<K>,
    own: &mut BoardPass<K>,
    passes: &mut Vec<BoardPass<K>>,
) -> Result<(), AllocError>
    requires own { IsPassAt board.now own.old }
    requires back { All (IsBack C.owes C.ends K.says board.now) passes.old.items }
    ensures own { IsPassAt board.now own.new }
    ensures back { All (IsBack C.owes C.ends K.says board.now) passes.new.items }
    ensures history { OnOk result (All (λ p. IsOfRun C.owes C.ends K.says K.order (sight K.says own.new).seen (known p).name) passes.new.items) }
{
    board.gather(rt, alloc, own, passes)
}

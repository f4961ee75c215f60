//! Laws of the histories that passes see.
ghost use Rattle.shared_keyed_board.specs.Calls.{CallsCanHappen};
ghost use Rattle.shared_keyed_board.specs.Histories.{HandsAreApart};
ghost use Rattle.shared_keyed_board.specs.Remembered.{NothingIsForgotten};

use keyed_queues::Named;

/// In every history that a pass sees, the keys in process are just those in the hands of passes, and no key is in the hands of
/// two.
pub fn hands_are_apart<K: Named>()
    ensures { HandsAreApart K.order }
{}

/// While the board is not shut down, a key that was added, at once or after a delay, or whose worker wants another look, or has failed, is
/// queued, delayed, or in somebody's hands and waits again when it is given back; or it was taken since.
pub fn nothing_is_forgotten<K: Named>()
    ensures { NothingIsForgotten K.order }
{}

/// What a pass has seen after a call is again a history of what may happen, with the step of the call: so that the laws of such histories speak of
/// it.
pub fn calls_can_happen<K: Named>()
    ensures { CallsCanHappen K.order }
{}

//! Laws of the histories that passes see.
ghost use Rattle.control_desk.specs.Calls.{CallsCanHappen};
ghost use Rattle.control_desk.specs.Hands.{HandsAreApart, ChangesAreTold, HighestAreHandled};
ghost use Rattle.control_desk.specs.Waits.{KeysWait};

/// In every history that a pass sees, the keys in process are just those in the hands of passes, and no key is in the hands of
/// two.
pub fn hands_are_apart()
    ensures { HandsAreApart }
{}

/// A history has just the steps that change the board or what is handled.
pub fn changes_are_told()
    ensures { ChangesAreTold }
{}

/// What is handled of a kind after a history is the highest revision at which something of it was handled there, and 0 where nothing was.
pub fn highest_are_handled()
    ensures { HighestAreHandled }
{}

/// A key that is given back comes due no sooner than its delay and the time that was asked for allow, unless it was delayed to an earlier moment.
pub fn keys_wait()
    ensures { KeysWait }
{}

/// What a pass has seen after a call is again a history of what may happen, with the step of the call: so that the laws of such histories speak of
/// it.
pub fn calls_can_happen()
    ensures { CallsCanHappen }
{}

//! Laws of turns from their take to their end.
ghost use Rattle.sim_rest_laws.specs.TurnRunLaws.{TurnsGoOn, TurnsGoFromTheirTake};

/// A step leaves the turn in a worker's hands as it is, or takes its next step, by what is published, there or answered then; a
/// restart alone takes it away.
pub fn turns_go_on()
    ensures { TurnsGoOn }
{}

/// Whatever steps follow a take, without a restart, the turn is still in hand, or ended; and what was looked at, read and issued in it
/// came after the take.
pub fn turns_go_from_their_take()
    ensures { TurnsGoFromTheirTake }
{}

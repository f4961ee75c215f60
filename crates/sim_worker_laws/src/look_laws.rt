//! Laws of what workers look at, and of the turns in which they issue commands.
ghost use Rattle.sim_worker_laws.specs.LookLaws.{TurnsAreUnderWay, CommandsWereIssued};

/// Over every list of steps, each turn in a worker's hands is under way: each look of it was published by that informer since the last
/// restart, each live read was there at one revision, and what was issued in it is a beginning of its plan.
pub fn turns_are_under_way()
    ensures { TurnsAreUnderWay }
{}

/// Over every list of steps, each command that was issued was the next one of the turn that its worker then had in hand.
pub fn commands_were_issued()
    ensures { CommandsWereIssued }
{}

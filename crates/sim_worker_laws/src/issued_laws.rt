//! Laws of the commands that workers issue.
ghost use Rattle.sim_worker_laws.specs.IssuedLaws.{IssuedIsNext};

/// Over every list of steps, each command that a worker issued is the next one that its plan gives for what it had looked at and
/// read: each look is what had been published, and each live read what was there at one revision.
pub fn issued_is_next()
    ensures { IssuedIsNext }
{}

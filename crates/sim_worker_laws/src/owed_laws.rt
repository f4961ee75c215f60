//! Laws of the keys that changes owe.
ghost use Rattle.sim_worker_laws.specs.OwedLaws.{NothingIsForgotten};

/// Over every list of steps, each change that was published since the last restart is still to be handled, or each key that it
/// owes is dirty or was taken after it was handled.
pub fn nothing_is_forgotten()
    ensures { NothingIsForgotten }
{}

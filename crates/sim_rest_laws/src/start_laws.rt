//! Laws of where followers began for the last time.
ghost use Rattle.sim_rest_laws.specs.StartLaws.{EveryRunHasALastStart};

/// Every list of steps has a last restart, or none: since then, or from the beginning, followers began with nothing.
pub fn every_run_has_a_last_start()
    ensures { EveryRunHasALastStart }
{}

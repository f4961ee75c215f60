//! Laws of what waits to be published: it skips nothing.
ghost use Rattle.sim_cluster_laws.specs.PassLaws.{MovesPass, RunsPass};

/// Each move leaves deltas of which each, unless it gives the whole map, is the next change at the server, or tells of none.
pub fn moves_pass()
    ensures { MovesPass }
{}

/// Over every list of steps, each delta that waits, unless it gives the whole map, is the next change at the server, or tells of none.
pub fn runs_pass()
    ensures { RunsPass }
{}

//! What whole connections ask, from their first byte to their last.
ghost use Rattle.spec_http.specs.ConnectionExamples.{HeadsEnd, BodiesAreWaitedFor, LimitsAreExact};

/// Connections and what each asks, which is one thing.
pub fn connections_ask()
    // A request for a list is whole where its head ends.
    ensures heads_end { HeadsEnd }
    // One with a body where its body ends, if its head passes.
    ensures bodies_are_waited_for { BodiesAreWaitedFor }
{}

/// Heads at their limits and beyond them.
pub fn limits_are_exact()
    ensures { LimitsAreExact }
{}

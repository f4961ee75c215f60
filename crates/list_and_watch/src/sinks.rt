//! What is told of what a follower publishes.
ghost use Rattle.std.specs.Prelude.{List, OnOk, OnErr, map, ⊤};
ghost use Rattle.spec_server.specs.Snapshots.{Snapshot};
ghost use Rattle.spec_client_go.specs.Shifts as words;
ghost use Rattle.indexer.specs.Shifted.{shift_of};
ghost use Rattle.list_and_watch.specs.Given.{StaysSo};
ghost use Rattle.list_and_watch.specs.declared.causes.Cause as causes;
ghost use Rattle.list_and_watch.specs.declared.onward.Onward as onwards;

use crate::causes::Cause;
use crate::onward::Onward;
use indexer::{Indexed, Shift};
use std::alloc::AllocError;

/// What is told of what a follower publishes.
pub trait Sink {
    /// What a sink is after it took changes, by what it was before: any relation.
    ghost takes: { Self → List words.Shift → Snapshot → causes.Cause → Self → Type 0 };

    /// What a sink is after it did not take changes, by what it was before: any relation, and none where an implementer gives none.
    ghost refuses: { Self → List words.Shift → Snapshot → causes.Cause → Self → Type 0 } = { λ before changes objects cause after. ⊤ };

    /// What a sink is after it was asked whether the follower goes on, and said so: any relation, and none where an implementer gives none.
    ghost answers: { Self → onwards.Onward → Self → Type 0 } = { λ before onward after. ⊤ };

    /// What a sink is after it heard of another server: any relation, and none where an implementer gives none.
    ghost hears: { Self → Self → Type 0 } = { λ before after. ⊤ };

    /// What stays so of a sink, by what it was at first, whatever it is told and asked: any relation.
    ghost stays: { Self → Self → Type 0 } = { λ first now. ⊤ };

    /// Takes the changes of a publish, in order, with what is now published, and why it is given. The error
    /// is running out of memory: after a pause it is given the same again, and nothing is published before. So it takes none before the
    /// error, or counts those that it took, and then takes the others.
    fn changed(
        &mut self,
        shifts: &[Shift],
        objects: &Indexed,
        cause: Cause,
    ) -> Result<(), AllocError>
        ensures takes { OnOk result (takes self.old (map shift_of shifts.now) objects.now cause self.new) }
        ensures refuses { OnErr result (refuses self.old (map shift_of shifts.now) objects.now cause self.new) }
        ensures stays { StaysSo stays self.old self.new };

    /// Is told that it is another server that answers now, whose objects are listed next. What was published before says nothing of them.
    fn other_server(&mut self)
        ensures hears { hears self.old self.new }
        ensures stays { StaysSo stays self.old self.new };

    /// Returns whether the follower goes on. It is asked after each list, each piece of a watch, and each try that failed.
    fn goes_on(&mut self) -> Onward
        ensures answers { answers self.old result self.new }
        ensures stays { StaysSo stays self.old self.new };
}

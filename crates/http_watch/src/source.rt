//! What watches are served over.
ghost use Rattle.std.specs.Prelude.{ℕ, Option, Result};
ghost use Rattle.spec_api.specs.History as history;
ghost use Rattle.spec_api.specs.Refusals.{Refusal};
ghost use Rattle.spec_api.specs.Versions as versions;
ghost use Rattle.spec_api.specs.Versions.{Listed};
ghost use Rattle.revisions.specs.Watches.{watched_of};
ghost use Rattle.selector.specs.Views.{view_of};
ghost use Rattle.http_watch.specs.Given.{Gives, GivesBegun};

use crate::begun::Begun;
use object_keys::Fault;
use revisions::WatchedEvents;
use selector::View;
use spec_api::kinds::Kind;
use std::alloc::Global;

/// What can be watched. Others may write between two calls, so that what a call gives is a relation between what was seen
/// before it and after it. Out of memory is an answer as each refusal is.
pub trait WatchSource {
    /// A watch of a view from a revision is given this, of which so many events at most.
    ghost Watches: { Self → history.View → ℕ → ℕ → Result versions.Watched Refusal → Self → Type 0 };

    /// A watch of a view begins with this, not older than a revision, if one is named.
    ghost Begins: { Self → history.View → Option ℕ → Result Listed Refusal → Self → Type 0 };

    /// Returns the first events of a view after a revision, at most so many.
    fn watch_from(
        &mut self,
        alloc: Global,
        view: &View,
        after: u64,
        most: usize,
    ) -> Result<WatchedEvents, Fault>
        ensures watches { Gives watched_of (λ w. Watches self.old (view_of view.now) after most w self.new) result };

    /// Returns what is there of a view, not older than a revision, if one is named.
    fn initial(&mut self, alloc: Global, view: &View, least: Option<u64>) -> Result<Begun, Fault>
        ensures begins { GivesBegun (λ l. Begins self.old (view_of view.now) least l self.new) result };
}

/// What is done between a look that gave nothing and the next one.
pub trait LookPace {
    /// Waits for as long as it sees fit for a change of a kind, after so many looks in a row that gave nothing.
    fn pause(&mut self, kind: Kind, idle: u64);
}

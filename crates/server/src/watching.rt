//! What watches are given.
use crate::servers::Server;
use object_keys::Fault;
use revisions::watched::last_revision;
use revisions::{Event, WatchedEvents};
use selector::View;
use std::alloc::Global;

impl Server {
    ghost use Rattle.std.specs.Prelude.{◌+◌, map};
    ghost use Rattle.spec_server.specs.Servers.{watch_by, window_of};
    ghost use Rattle.spec_server.specs.Recorded.{recorded_since};
    ghost use Rattle.revisions.specs.Events.{event_seen};
    ghost use Rattle.selector.specs.Views.{view_of};
    ghost use Rattle.watch_cache.specs.Served.{Serves};
    ghost use Rattle.revisions.specs.Watches.{watched_of};

    /// Returns the first changes of a view after a revision, at most `max`, which may be any number. The errors are a revision
    /// below the oldest that is served, one above the present, and running out of memory. A revision that is refused takes no memory.
    pub fn watch_from(
        &self,
        alloc: Global,
        view: &View,
        after: u64,
        max: usize,
    ) -> Result<WatchedEvents, Fault>
        ensures { Serves watched_of (watch_by self.now (view_of view.now) after max) result }
    {
        let present = self.revision();
        let mut events = self.one_more(alloc, view, after, max)?;
        if events.len() <= max {
            return Ok(WatchedEvents {
                events,
                stands: present,
            });
        }
        events.truncate(max);
        let stands = last_revision(&events, after);
        Ok(WatchedEvents { events, stands })
    }

    /// Returns the first changes of a view after a revision, at most `max` and one more, which tells whether there is more.
    /// Where no number is greater than `max`, no cache has more changes.
    fn one_more(
        &self,
        alloc: Global,
        view: &View,
        after: u64,
        max: usize,
    ) -> Result<Vec<Event>, Fault>
        ensures { Serves (λ es. map event_seen es.items)
            (recorded_since (window_of view.now.kind self.now) self.now.snapshot.revision (view_of view.now) after (max + 1)) result }
    {
        let cache = self.cache(view.kind);
        // says that the window has no more changes than there is room for
        let _ = cache.window();
        cache.since(alloc, self.revision(), view, after, max.saturating_add(1))
    }
}

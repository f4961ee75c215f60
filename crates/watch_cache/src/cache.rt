//! The cache of one kind.
ghost use Rattle.std.specs.Prelude.{◌≡◌, ◌≤◌, max, option_map};
ghost use Rattle.std.specs.Option.{option_to_list};
ghost use Rattle.spec_api.specs.Windows.{last_revision};
ghost use Rattle.watch_cache.specs.Changes.{change_seen};

use crate::changes::Change;
use crate::copies::copies_above;
use crate::searching::events_above;
use circular_buffer::HeapCircularBuffer;
use object_keys::Fault;
use revisions::Event;
use selector::View;
use spec_api::kinds::Kind;
use std::alloc::{AllocError, Global};
use std::marker::Model;

/// The last changes of a kind, and the floor: the least revision from which they are served.
pub struct Cache {
    kind: Kind,
    changes: HeapCircularBuffer<Change>,
    floor: u64,
}

impl Drop for Cache {
    // Called where one is dropped; a derived drop is proved anew at each such place.
    fn drop(self) {
        let Cache {
            kind: _kind,
            changes: _changes,
            floor: _floor,
        } = self;
    }
}

impl Model for Cache {
    ghost use Rattle.std.specs.Prelude.{◌≤◌, map};
    ghost use Rattle.spec_server.specs.Recorded.{Window};
    ghost use Rattle.spec_api.specs.Windows.{IsRising};
    ghost use Rattle.spec_server.specs.Codes.{coded_window};
    ghost use Rattle.watch_cache.specs.Changes.{change_seen};

    ghost Value = { Window };

    ghost coded = { coded_window };

    ghost view = { λ s. record { kind = s.kind; size = s.changes.capacity; kept = map change_seen s.changes.items; floor = s.floor } };

    ghost invariant = { λ s. (1 ≤ s.floor) × IsRising 0 (map change_seen s.changes.items) };
}

impl Cache {
    ghost use Rattle.std.specs.Prelude.{◌≡◌, ◌≤◌, ◌<◌, IfOk, length, map};
    ghost use Rattle.spec_server.specs.Recorded.{above, opened, recorded, compacted_to, recorded_since};
    ghost use Rattle.spec_api.specs.Windows.{last_revision, within};
    ghost use Rattle.selector.specs.Views.{view_of};
    ghost use Rattle.revisions.specs.Events.{event_seen};
    ghost use Rattle.watch_cache.specs.Changes.{change_seen};
    ghost use Rattle.watch_cache.specs.Served.{Serves};

    /// Returns a cache of a kind that records the last `window` changes and has none so far. The error is running out of
    /// memory.
    pub fn new(alloc: Global, kind: Kind, window: usize) -> Result<Cache, AllocError>
        ensures { IfOk result (λ c. c ≡ opened kind window) }
    {
        Ok(Cache {
            kind,
            changes: HeapCircularBuffer::with_capacity(alloc, window)?,
            floor: 1,
        })
    }

    /// Returns the kind whose changes are recorded.
    pub fn kind(&self) -> Kind
        ensures { result ≡ self.now.kind }
    {
        self.kind
    }

    /// Returns how many changes there is room for. No more are recorded.
    pub fn window(&self) -> usize
        ensures size { result ≡ self.now.size }
        ensures room { length self.now.kept ≤ result }
    {
        self.changes.capacity()
    }

    /// Returns the least revision from which watches and lists are served.
    pub fn floor(&self) -> u64
        ensures { result ≡ self.now.floor }
    {
        self.floor
    }

    /// Adds the next change of the kind. Where there is no room, the oldest one is dropped. It takes no memory.
    pub fn record(&mut self, change: Change)
        requires { last_revision 0 self.old.kept < change.revision }
        ensures window { self.new ≡ recorded self.old (change_seen change) }
        ensures last { last_revision 0 self.new.kept ≤ change.revision }
    {
        // says that no more changes are recorded so far than there is room for
        let _ = self.window();
        let dropped = self.changes.push_back(change);
        self.floor = raised(self.floor, dropped);
    }

    /// Raises the floor to a revision, if it is lower. It takes no memory.
    pub fn compact(&mut self, revision: u64)
        ensures { self.new ≡ compacted_to self.old revision }
    {
        if self.floor < revision {
            self.floor = revision;
        }
    }

    /// Returns whether a revision is served: it is at least the floor, and at most the present one. The errors say which it is
    /// not. It takes no memory.
    pub fn check(&self, asked: u64, present: u64) -> Result<(), Fault>
        ensures { Serves (λ u. u) (within self.now.floor present asked tt) result }
    {
        let floor = self.floor;
        if asked < floor {
            return Err(Fault::Expired { asked, floor });
        }
        if present < asked {
            return Err(Fault::TooNew { asked, present });
        }
        Ok(())
    }

    /// Returns the first events of a view after a revision, in order, at most as many as are asked for. The errors are a
    /// revision below the floor, one above the present, and running out of memory.
    pub fn since(
        &self,
        alloc: Global,
        present: u64,
        view: &View,
        after: u64,
        max: usize,
    ) -> Result<Vec<Event>, Fault>
        ensures { Serves (λ es. map event_seen es.items) (recorded_since self.now present (view_of view.now) after max) result }
    {
        self.check(after, present)?;
        let events = events_above(alloc, &self.changes, view, after, max)?;
        Ok(events)
    }

    /// Returns copies of the changes after a revision, in their order: by undoing them, the newest first, what was there at it is made of what
    /// is there. The errors are a revision below the floor, one above the present, and running out of memory. A revision that is refused takes
    /// no memory.
    pub fn changes_since(
        &self,
        alloc: Global,
        present: u64,
        revision: u64,
    ) -> Result<Vec<Change>, Fault>
        ensures { Serves (λ changes. map change_seen changes.items)
            (within self.now.floor present revision (above revision self.now.kept)) result }
    {
        self.check(revision, present)?;
        let changes = copies_above(alloc, &self.changes, revision)?;
        Ok(changes)
    }
}

/// Returns the floor after a change was dropped, or none was.
fn raised(floor: u64, dropped: Option<Change>) -> u64
    requires { 1 ≤ floor }
    ensures { result ≡ max floor (last_revision 1 (option_to_list (option_map change_seen dropped))) }
{
    match dropped {
        Some(change) => floor.max(change.revision),
        None => floor,
    }
}

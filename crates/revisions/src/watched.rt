//! What watches are given.
ghost use Rattle.std.specs.Prelude.{◌≡◌, ◌++◌, map};
ghost use Rattle.spec_api.specs.Streams.{event as change};
ghost use Rattle.spec_api.specs.Versions.{last_change};
ghost use Rattle.spec_api.specs.WatchReplies.{told_lines};
ghost use Rattle.revisions.specs.Events.{event_seen};
ghost use Rattle.revisions.specs.Watches.{watched_of, last_bookmark};

use meta::Event;

/// A part of what a watch asks for.
#[derive(Drop)]
pub struct WatchedEvents {
    /// The events, in order.
    pub events: Vec<Event>,
    /// The revision up to which these are all: from here the watch goes on.
    pub stands: u64,
}

/// Returns the revision of the last event; without any, that after which they come. A watch that stands above it has seen more
/// than it was given.
pub fn last_revision(events: &[Event], after: u64) -> u64
    ensures { result ≡ last_change after (map event_seen events.now) }
{
    match events.last() {
        None => after,
        Some(event) => event.revision,
    }
}

/// Returns the revision of the bookmark after what a watch from a revision is given: where the watch then stands, if bookmarks
/// are shown and it stands above the last event.
pub fn last_bookmark(bookmarks: bool, from: u64, watched: &WatchedEvents) -> Option<u64>
    ensures { told_lines bookmarks from (watched_of watched.now)
        ≡ map change (watched_of watched.now).events ++ last_bookmark result }
{
    if bookmarks && last_revision(&watched.events, from) < watched.stands {
        Some(watched.stands)
    } else {
        None
    }
}

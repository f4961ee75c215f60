//! What the query of a watch asks of it.
ghost use Rattle.std.specs.Prelude.{◌≡◌};
ghost use Rattle.form_urlencoded.specs.Form.{raw_pairs};
ghost use Rattle.spec_api.specs.ListQueries.{watch_options};
ghost use Rattle.request_parts.specs.Collected.{Gives, watch_seen};

use crate::faults::QueryFault;
use crate::members::{initial, is_true_value, matched, version};
use crate::watch_starts::start_of;
use spec_api::versions::Start;
use std::alloc::Global;

/// What a watch is asked to show.
#[derive(Clone, Copy)]
pub struct WatchOptions {
    /// How it begins.
    pub start: Start,
    /// Whether bookmarks are shown.
    pub bookmarks: bool,
}

/// Returns the options of a watch. Its limit and its page token are ignored.
pub(crate) fn watch_options(alloc: Global, query: &[u8]) -> Result<WatchOptions, QueryFault>
    ensures { Gives watch_seen (watch_options (raw_pairs query.now)) result }
{
    let bookmarks = is_true_value(alloc, query, "allowWatchBookmarks")?;
    let version = version(alloc, query)?;
    let matched = matched(alloc, query)?;
    let initial = initial(alloc, query)?;
    match start_of(initial, matched, version) {
        Some(start) => Ok(WatchOptions { start, bookmarks }),
        None => Err(QueryFault::BadQuery),
    }
}

//! How a watch opens.
ghost use Rattle.std.specs.Prelude.{◌≡◌, ◌++◌, IfOk, false, map};
ghost use Rattle.spec_http.specs.Replies.{watch_head, frames_text};
ghost use Rattle.spec_api.specs.Streams.{event};
ghost use Rattle.revisions.specs.Watches.{watched_of, last_bookmark};
ghost use Rattle.selector.specs.Views.{view_of};
ghost use Rattle.http_watch.specs.FirstFrames.{first_frames};
ghost use Rattle.http_watch.specs.Opened.{IsOpened, opening_of};

use crate::begun::Begun;
use crate::first_frames::FirstFrames;
use crate::frames::{idle_after, push_look};
use crate::one_look::MOST_EVENTS;
use crate::source::WatchSource;
use crate::standing::WatchStanding;
use http_response::watch_head;
use object_keys::Fault;
use revisions::WatchedEvents;
use revisions::watched::last_bookmark;
use selector::View;
use spec_api::kinds::Kind;
use spec_api::versions::Start;
use std::alloc::{AllocError, Global};

/// A watch that has opened.
#[derive(Drop)]
pub struct WatchStart {
    /// Where it stands.
    pub at: WatchStanding,
    /// What it opens with: the head, and the first frames.
    pub text: Vec<u8>,
    /// The frames after these, which are still to be made.
    pub rest: FirstFrames,
}

/// Returns the head of a watch.
fn head_text(alloc: Global) -> Result<Vec<u8>, AllocError>
    ensures { IfOk result (λ text. text.items ≡ watch_head) }
{
    let mut text = Vec::new(alloc);
    text.extend_from_slice(watch_head())?;
    Ok(text)
}

/// Returns the head of a watch and the frames of what its first look gave.
fn first_text(
    alloc: Global,
    kind: Kind,
    watched: &WatchedEvents,
    bookmark: Option<u64>,
) -> Result<Vec<u8>, AllocError>
    ensures { IfOk result (λ text. text.items
        ≡ watch_head ++ frames_text kind (map event (watched_of watched.now).events ++ last_bookmark bookmark)) }
{
    let mut text = head_text(alloc)?;
    push_look(alloc, &mut text, kind, watched, bookmark)?;
    Ok(text)
}

/// Returns where a watch stands that has begun, before any look.
fn standing_at(begun: &Begun) -> WatchStanding
    ensures revision { result.revision ≡ begun.now.revision }
    ensures idle { result.idle ≡ 0 }
{
    WatchStanding {
        revision: begun.revision,
        idle: 0,
    }
}

/// Returns a watch that has opened with what is there and, if bookmarks are shown, the bookmark that closes it.
fn opened_with(
    alloc: Global,
    kind: Kind,
    bookmarks: bool,
    begun: Begun,
) -> Result<WatchStart, AllocError>
    ensures opening { IfOk result (λ r. opening_of r ≡ watch_head ++ first_frames kind bookmarks begun.revision begun.objects) }
    ensures revision { IfOk result (λ r. r.at.revision ≡ begun.revision) }
    ensures idle { IfOk result (λ r. r.at.idle ≡ 0) }
{
    let at = standing_at(&begun);
    let mut text = head_text(alloc)?;
    let mut rest = FirstFrames::of(alloc, kind, bookmarks, begun)?;
    rest.push_next(alloc, &mut text)?;
    Ok(WatchStart { at, text, rest })
}

/// Opens a watch with what is there.
fn open_with<S: WatchSource>(
    alloc: Global,
    source: &mut S,
    view: &View,
) -> Result<WatchStart, Fault>
    ensures { IsOpened S.Begins S.Watches (view_of view.now) false Start.Listed source.old source.new result }
{
    let begun = match source.initial(alloc, view, None) {
        Ok(begun) => begun,
        Err(fault) => return Err(fault),
    };
    match opened_with(alloc, view.kind, false, begun) {
        Ok(opened) => Ok(opened),
        Err(_) => Err(Fault::NoMemory),
    }
}

/// Opens a watch with initial events: what is there, not older than a revision, if one is named, and the bookmark that closes it.
fn open_closed<S: WatchSource>(
    alloc: Global,
    source: &mut S,
    view: &View,
    bookmarks: bool,
    least: Option<u64>,
) -> Result<WatchStart, Fault>
    ensures { IsOpened S.Begins S.Watches (view_of view.now) bookmarks (Start.Streamed least) source.old source.new result }
{
    let begun = match source.initial(alloc, view, least) {
        Ok(begun) => begun,
        Err(fault) => return Err(fault),
    };
    match opened_with(alloc, view.kind, bookmarks, begun) {
        Ok(opened) => Ok(opened),
        Err(_) => Err(Fault::NoMemory),
    }
}

/// Opens a watch after the present revision.
fn open_after<S: WatchSource>(
    alloc: Global,
    source: &mut S,
    view: &View,
) -> Result<WatchStart, Fault>
    ensures { IsOpened S.Begins S.Watches (view_of view.now) false Start.Present source.old source.new result }
{
    let begun = match source.initial(alloc, view, None) {
        Ok(begun) => begun,
        Err(fault) => return Err(fault),
    };
    match head_text(alloc) {
        Ok(text) => Ok(WatchStart {
            at: standing_at(&begun),
            text,
            rest: FirstFrames::none(alloc, view.kind),
        }),
        Err(_) => Err(Fault::NoMemory),
    }
}

/// Opens a watch with a first look from a revision.
fn open_at<S: WatchSource>(
    alloc: Global,
    source: &mut S,
    view: &View,
    bookmarks: bool,
    from: u64,
) -> Result<WatchStart, Fault>
    ensures { IsOpened S.Begins S.Watches (view_of view.now) bookmarks (Start.After from) source.old source.new result }
{
    let watched = match source.watch_from(alloc, view, from, MOST_EVENTS) {
        Ok(watched) => watched,
        Err(fault) => return Err(fault),
    };
    let bookmark = last_bookmark(bookmarks, from, &watched);
    let idle = idle_after(0, &watched, bookmark);
    match first_text(alloc, view.kind, &watched, bookmark) {
        Ok(text) => Ok(WatchStart {
            at: WatchStanding {
                revision: watched.stands,
                idle,
            },
            text,
            rest: FirstFrames::none(alloc, view.kind),
        }),
        Err(_) => Err(Fault::NoMemory),
    }
}

/// Opens a watch of a view that begins so. The first look decides whether it is refused; nothing is to be written then. Else what it
/// opens with is to be written at once, of which the first 64 KiB are made, and then the frames of each look from where it stands.
pub fn open<S: WatchSource>(
    alloc: Global,
    source: &mut S,
    view: &View,
    bookmarks: bool,
    start: Start,
) -> Result<WatchStart, Fault>
    ensures { IsOpened S.Begins S.Watches (view_of view.now) bookmarks start source.old source.new result }
{
    match start {
        Start::After(revision) => open_at(alloc, source, view, bookmarks, revision),
        Start::Listed => open_with(alloc, source, view),
        Start::Streamed(least) => open_closed(alloc, source, view, bookmarks, least),
        Start::Present => open_after(alloc, source, view),
    }
}

//! The frames of what a watch is given, written.
ghost use Rattle.std.specs.Prelude.{◌≡◌, ◌<◌, ◌++◌, IfOk, IfErr, OnOk, None, map, true};
ghost use Rattle.chunked.specs.Bodies.{chunk_text};
ghost use Rattle.spec_http.specs.Replies.{frames_text};
ghost use Rattle.spec_api.specs.Frames.{frame_text, error_frame};
ghost use Rattle.spec_api.specs.Streams.{event};
ghost use Rattle.spec_api.specs.WatchReplies.{told_lines};
ghost use Rattle.object_keys.specs.Faults.{refusal_of};
ghost use Rattle.revisions.specs.Watches.{watched_of, last_bookmark};
ghost use Rattle.http_watch.specs.Looked.{Writes, IsShown};
ghost use Rattle.http_watch.specs.Watches.{idle_after, most_idle};
ghost use Rattle.http_watch.specs.declared.fault.Cut.TheVariants as cut;

use crate::fault::Cut;
use crate::looked::Looked;
use crate::standing::WatchStanding;
use chunked::Watched as Device;
use http_response::{push_bookmark, push_changes, push_error};
use object_keys::Fault;
use revisions::WatchedEvents;
use revisions::watched::last_bookmark;
use spec_api::kinds::Kind;
use std::alloc::{AllocError, Global};
use std::io::Write;

/// Writes a text and flushes the writer.
pub(crate) fn write_text<W: Write + Drop>(writer: &mut Device<W>, text: &[u8]) -> Result<(), Cut>
    ensures written { Writes text.now W.contents writer.old writer.new result }
    ensures memory { IfErr result (λ c. c ≡ cut.Device) }
{
    match writer.send(text) {
        Ok(()) => Ok(()),
        Err(_) => Err(Cut::Device),
    }
}

/// Adds the frames of events and then, if there is one, of a bookmark.
pub(crate) fn push_look(
    alloc: Global,
    text: &mut Vec<u8>,
    kind: Kind,
    watched: &WatchedEvents,
    bookmark: Option<u64>,
) -> Result<(), AllocError>
    ensures { OnOk result (text.new.items ≡ text.old.items
        ++ frames_text kind (map event (watched_of watched.now).events ++ last_bookmark bookmark)) }
{
    push_changes(alloc, text, &watched.events)?;
    match bookmark {
        None => Ok(()),
        Some(revision) => push_bookmark(alloc, text, kind, revision),
    }
}

/// Returns how many looks in a row have given no line, after one that gave these.
pub(crate) fn idle_after(idle: u64, watched: &WatchedEvents, bookmark: Option<u64>) -> u64
    requires { idle < most_idle }
    ensures { result ≡ idle_after idle (map event (watched_of watched.now).events ++ last_bookmark bookmark) }
{
    if watched.events.is_empty() && bookmark.is_none() {
        idle + 1
    } else {
        0
    }
}

/// Returns the frames of what a look gave, and where the watch then stands.
pub(crate) fn shown(
    alloc: Global,
    kind: Kind,
    bookmarks: bool,
    at: WatchStanding,
    watched: &WatchedEvents,
) -> Result<Looked, AllocError>
    requires idle { at.idle < most_idle }
    ensures { IfOk result (λ l. IsShown kind bookmarks at (watched_of watched.now) l) }
{
    let bookmark = last_bookmark(bookmarks, at.revision, watched);
    let mut text = Vec::new(alloc);
    push_look(alloc, &mut text, kind, watched, bookmark)?;
    let next = WatchStanding {
        revision: watched.stands,
        idle: idle_after(at.idle, watched, bookmark),
    };
    Ok(Looked {
        text,
        next: Some(next),
    })
}

/// Returns the frame that says why a watch ends.
pub(crate) fn told(alloc: Global, fault: &Fault) -> Result<Looked, AllocError>
    ensures text { IfOk result (λ l. l.text.items ≡ chunk_text (frame_text (error_frame (refusal_of fault.now)))) }
    ensures next { IfOk result (λ l. l.next ≡ None) }
{
    let mut text = Vec::new(alloc);
    push_error(alloc, &mut text, fault)?;
    Ok(Looked { text, next: None })
}

//! Looks of a watch.
ghost use Rattle.std.specs.Prelude.{◌≡◌, ◌<◌, false};
ghost use Rattle.chunked.specs.Devices.{has_failed};
ghost use Rattle.selector.specs.Views.{view_of};
ghost use Rattle.http_watch.specs.Looked.{IsLook, LooksOnce};
ghost use Rattle.http_watch.specs.Watches.{most_idle};

use crate::fault::Cut;
use crate::frames::{shown, told, write_text};
use crate::looked::Looked;
use crate::source::WatchSource;
use crate::standing::WatchStanding;
use chunked::Watched as Device;
use object_keys::Fault;
use selector::View;
use std::alloc::{AllocError, Global};
use std::io::Write;

/// How many events a look asks for at most, so that the memory that a watch takes stays bounded.
pub(crate) const MOST_EVENTS: usize = 64;

/// Takes one look of a watch: asks what is new, and returns its frames and where the watch then stands. A refusal is its last frame;
/// the watch then stands nowhere. The error is out of memory: the watch can only be left then, unfinished.
pub fn take_look<S: WatchSource>(
    alloc: Global,
    source: &mut S,
    view: &View,
    bookmarks: bool,
    at: WatchStanding,
) -> Result<Looked, AllocError>
    requires idle { at.idle < most_idle }
    ensures { IsLook S.Watches (view_of view.now) bookmarks at source.old source.new result }
{
    match source.watch_from(alloc, view, at.revision, MOST_EVENTS) {
        Ok(watched) => match shown(alloc, view.kind, bookmarks, at, &watched) {
            Ok(looked) => Ok(looked),
            Err(error) => Err(error),
        },
        Err(Fault::NoMemory) => Err(AllocError),
        Err(fault) => match told(alloc, &fault) {
            Ok(looked) => Ok(looked),
            Err(error) => Err(error),
        },
    }
}

/// Takes one look of a watch, writes its frames, all in one write, and returns where the watch then stands. Where there are none
/// nothing is written.
pub(crate) fn look<S: WatchSource, W: Write + Drop>(
    alloc: Global,
    source: &mut S,
    view: &View,
    bookmarks: bool,
    at: WatchStanding,
    writer: &mut Device<W>,
) -> Result<Option<WatchStanding>, Cut>
    requires idle { at.idle < most_idle }
    requires sound { has_failed writer.old ≡ false }
    ensures { LooksOnce S.Watches (view_of view.now) bookmarks at source.old source.new W.contents writer.old writer.new result }
{
    match take_look(alloc, source, view, bookmarks, at) {
        Ok(looked) => {
            if looked.text.is_empty() {
                return Ok(looked.next);
            }
            match write_text(writer, &looked.text) {
                Ok(()) => Ok(looked.next),
                Err(cut) => Err(cut),
            }
        }
        Err(_) => Err(Cut::NoMemory),
    }
}

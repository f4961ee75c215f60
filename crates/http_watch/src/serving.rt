//! The loop that serves a watch.
ghost use Rattle.std.specs.Prelude.{◌≡◌, ◌++◌, [], false};
ghost use Rattle.chunked.specs.Devices.{has_failed};
ghost use Rattle.selector.specs.Views.{view_of};
ghost use Rattle.chunked.specs.Bodies.{last_chunk};
ghost use Rattle.http_watch.specs.Looked.{Writes};
ghost use Rattle.http_watch.specs.Opened.{opening_of};
ghost use Rattle.http_watch.specs.Served.{Follows, Serves, WritesInParts};

use crate::fault::{Cut, WatchFault};
use crate::first_frames::FirstFrames;
use crate::frames::write_text;
use crate::one_look::look;
use crate::opening::{WatchStart, open};
use crate::source::{LookPace, WatchSource};
use crate::standing::WatchStanding;
use chunked::Watched as Device;
use http_response::last_chunk;
use selector::View;
use spec_api::versions::Start;
use std::alloc::Global;
use std::io::Write;

/// How many looks in a row that give no line end a watch.
pub const MOST_IDLE: u64 = 1024;

/// Writes the end of a watch.
fn finish<W: Write + Drop>(writer: &mut Device<W>) -> Result<(), Cut>
    ensures { Writes last_chunk W.contents writer.old writer.new result }
{
    write_text(writer, last_chunk())
}

/// Goes on with a watch that has opened, from where it stands: looks what is new, and writes it, again and again. A look after
/// one that gave nothing waits for the pace.
fn follow<S: WatchSource, P: LookPace, W: Write + Drop>(
    alloc: Global,
    source: &mut S,
    view: &View,
    bookmarks: bool,
    from: WatchStanding,
    pace: &mut P,
    writer: &mut Device<W>,
) -> Result<(), Cut>
    requires sound { has_failed writer.old ≡ false }
    ensures { Follows S.Watches (view_of view.now) bookmarks W.contents source.old source.new writer.old writer.new
        [] from.revision from.idle result }
{
    let mut at = from;
    for _ in 0..u64::MAX {
        if at.idle >= MOST_IDLE {
            match finish(writer) {
                Ok(()) => return Ok(()),
                Err(cut) => return Err(cut),
            }
        }
        if at.idle > 0 {
            pace.pause(view.kind, at.idle);
        }
        match look(alloc, source, view, bookmarks, at, writer) {
            Ok(Some(next)) => at = next,
            Ok(None) => match finish(writer) {
                Ok(()) => return Ok(()),
                Err(cut) => return Err(cut),
            },
            Err(cut) => return Err(cut),
        }
    }
    // Nobody lives to see so many looks.
    Err(Cut::NoMemory)
}

/// Writes the frames with which a watch begins, each piece as it is made.
fn write_frames<W: Write + Drop>(
    alloc: Global,
    frames: FirstFrames,
    writer: &mut Device<W>,
) -> Result<(), Cut>
    requires sound { has_failed writer.old ≡ false }
    ensures { WritesInParts frames W.contents writer.old writer.new result }
{
    let mut frames = frames;
    for _ in 0..u64::MAX {
        if !frames.has_more() {
            return Ok(());
        }
        let mut piece = Vec::new(alloc);
        match frames.push_next(alloc, &mut piece) {
            Ok(()) => {}
            Err(_) => return Err(Cut::NoMemory),
        }
        match write_text(writer, &piece) {
            Ok(()) => {}
            Err(_) => return Err(Cut::Device),
        }
    }
    Err(Cut::NoMemory)
}

/// Writes what a watch opened with: what is made of it, and then the rest.
fn write_opening<W: Write + Drop>(
    alloc: Global,
    text: &[u8],
    rest: FirstFrames,
    writer: &mut Device<W>,
) -> Result<(), Cut>
    ensures { WritesInParts (text.now ++ rest) W.contents writer.old writer.new result }
{
    match write_text(writer, text) {
        Ok(()) => {}
        Err(_) => return Err(Cut::Device),
    }
    match write_frames(alloc, rest, writer) {
        Ok(()) => Ok(()),
        Err(cut) => Err(cut),
    }
}

/// Writes what a watch opened with, and goes on with it: writes the frames of each look as they come, those of one look in one write,
/// and at last its end. A look after one that gave nothing waits for the pace.
pub fn go_on<S: WatchSource, P: LookPace, W: Write + Drop>(
    alloc: Global,
    source: &mut S,
    view: &View,
    bookmarks: bool,
    opened: WatchStart,
    pace: &mut P,
    writer: &mut Device<W>,
) -> Result<(), Cut>
    ensures { Follows S.Watches (view_of view.now) bookmarks W.contents source.old source.new writer.old writer.new
        (opening_of opened) opened.at.revision opened.at.idle result }
{
    let at = opened.at;
    let rest = opened.rest;
    match write_opening(alloc, &opened.text, rest, writer) {
        Ok(()) => {}
        Err(cut) => return Err(cut),
    }
    match follow(alloc, source, view, bookmarks, at, pace, writer) {
        Ok(()) => Ok(()),
        Err(cut) => Err(cut),
    }
}

/// Serves a watch of a view that begins so. The first look decides whether it is refused;
/// then nothing is written. Else the head is written at once, with the first frames, and then the frames of each look as they
/// come, those of one look in one write. The watch is over after 1,024 looks in a row that gave no line, or by a refusal, which
/// is its last frame. Only a watch that is over has an end: one that is left, because the writer fails or out of memory, is
/// seen to be cut.
pub fn serve_watch<S: WatchSource, P: LookPace, W: Write + Drop>(
    alloc: Global,
    source: &mut S,
    view: &View,
    bookmarks: bool,
    start: Start,
    pace: &mut P,
    writer: &mut Device<W>,
) -> Result<(), WatchFault>
    ensures { Serves S.Begins S.Watches (view_of view.now) bookmarks W.contents source.old source.new writer.old writer.new
        start result }
{
    let opened = match open(alloc, source, view, bookmarks, start) {
        Ok(opened) => opened,
        Err(fault) => return Err(WatchFault::Refused(fault)),
    };
    match go_on(alloc, source, view, bookmarks, opened, pace, writer) {
        Ok(()) => Ok(()),
        Err(cut) => Err(WatchFault::Cut(cut)),
    }
}

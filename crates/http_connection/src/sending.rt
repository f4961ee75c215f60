//! Bytes, written as far as they are taken.
ghost use Rattle.std.specs.Prelude.{◌≡◌, ◌≤◌, IfSome, length};
ghost use Rattle.api.specs.Responding.{text_of};
ghost use Rattle.http_connection.specs.Sending.{Refills, RepliesOn, Rests, Sends, WatchSends, WatchesOn};
ghost use Rattle.http_connection.specs.Stopping.{device_in, has_stopped};

use crate::noted::Noted;
use crate::phase::ConnectionPhase;
use crate::replying::Replying;
use crate::watching::Watching;
use api::{Served, Text};
use http_response::{out_of_memory, response};
use std::alloc::Global;
use std::io::{ErrorKind, Write};

/// How many pieces of what is long are made and written before others go on: few, as they wait meanwhile.
pub(crate) const MOST_PIECES: u64 = 2;

/// How far bytes were written.
#[derive(Clone, Copy)]
pub enum Sent {
    /// Up to here: to their end, or the writer takes no more now.
    To(usize),
    /// The writer has stopped.
    Failed,
}

/// Writes on from a place, until all is written or the writer takes no more now.
#[tactic(auto, using(crate::proofs::Writing::sends_on))]
pub(crate) fn write_on<W: Write + Drop>(bytes: &[u8], taken: usize, writer: &mut Noted<W>) -> Sent
    ensures { Sends (has_stopped writer.new) (W.contents (device_in writer.old)) (W.contents (device_in writer.new)) bytes.now taken result }
{
    let mut at = taken;
    for _ in 0..u64::MAX {
        if at >= bytes.len() {
            return Sent::To(at);
        }
        match writer.write(bytes.split_at(at).1) {
            Ok(0) => return Sent::Failed,
            Ok(n) => at += n,
            Err(error) => {
                if writer.has_stopped() {
                    return Sent::Failed;
                }
                if error.kind() != ErrorKind::Interrupted {
                    return Sent::To(at);
                }
            }
        }
    }
    Sent::To(at)
}

/// Returns a reply whose bytes are made, if there is memory for them now.
fn made(alloc: Global, text: Text) -> Text
    ensures { text_of result ≡ text_of text }
{
    match text {
        Text::Parts(reply) => match response(alloc, reply.code, reply.text.as_str()) {
            Ok(bytes) => Text::Whole(bytes),
            Err(_) => Text::Parts(reply),
        },
        text => text,
    }
}

/// Returns the bytes of a reply, where they are made.
fn bytes_of(text: &Text) -> Option<&[u8]>
    ensures { IfSome result (λ bytes. bytes.now ≡ text_of text.now) }
{
    match text {
        Text::Whole(bytes) => Some(bytes.as_slice()),
        Text::OutOfMemory => Some(out_of_memory()),
        Text::Parts(_) => None,
    }
}

/// Writes a reply on, and returns where its connection then stands. A reply for whose bytes there is no memory waits: it is written by a
/// later call.
pub(crate) fn reply_on<W: Write + Drop>(
    alloc: Global,
    replying: Replying,
    writer: &mut Noted<W>,
) -> ConnectionPhase
    ensures { RepliesOn (has_stopped writer.new) (W.contents (device_in writer.old)) (W.contents (device_in writer.new)) replying result }
{
    let served = replying.served;
    let text = made(alloc, replying.text);
    let taken = match bytes_of(&text) {
        None => replying.taken,
        Some(bytes) => match write_on(bytes, replying.taken, writer) {
            Sent::Failed => return ConnectionPhase::Closing(served),
            Sent::To(n) => {
                if n >= bytes.len() {
                    return ConnectionPhase::Closing(served);
                }
                n
            }
        },
    };
    ConnectionPhase::Replying(Replying {
        text,
        taken,
        served,
    })
}

/// Writes on what is made of a watch, and returns it then; nothing where the writer has stopped.
fn watch_sent<W: Write + Drop>(watching: Watching, writer: &mut Noted<W>) -> Option<Watching>
    ensures { WatchSends (has_stopped writer.new) (W.contents (device_in writer.old)) (W.contents (device_in writer.new)) watching result }
{
    match write_on(&watching.out, watching.taken, writer) {
        Sent::To(taken) => Some(Watching {
            taken,
            is_paused: false,
            ..watching
        }),
        Sent::Failed => None,
    }
}

/// Returns a watch with what is to be written after what is, made; nothing out of memory, or where it is more than may be left unwritten.
fn refilled(alloc: Global, watching: Watching) -> Option<Watching>
    requires written { length watching.out.items ≤ watching.taken }
    ensures { Refills watching result }
{
    if !watching.rest.has_more() {
        return Some(Watching {
            out: watching.later,
            taken: 0,
            later: Vec::new(alloc),
            ..watching
        });
    }
    let mut watching = watching;
    let mut out = Vec::new(alloc);
    if watching.rest.push_next(alloc, &mut out).is_err() {
        return None;
    }
    if !watching.has_room(out.len(), watching.later.len()) {
        return None;
    }
    Some(Watching {
        out,
        taken: 0,
        pieces: watching.pieces.wrapping_add(1),
        ..watching
    })
}

/// Returns where the connection of a watch stands that is written as far as it goes now. One that is over is closed once its end is
/// written.
fn rested(alloc: Global, watching: Watching) -> ConnectionPhase
    ensures { Rests watching result }
{
    if watching.has_more() {
        return ConnectionPhase::Watching(watching);
    }
    if watching.at.is_none() {
        return ConnectionPhase::Closing(Served::Asked);
    }
    ConnectionPhase::Watching(Watching {
        out: Vec::new(alloc),
        taken: 0,
        ..watching
    })
}

/// Writes a watch on, as far as that goes now, or so much that others are to go on, and returns where its connection then stands. What it opened
/// with is made as it is written.
pub(crate) fn watch_on<W: Write + Drop>(
    alloc: Global,
    watching: Watching,
    writer: &mut Noted<W>,
) -> ConnectionPhase
    ensures { WatchesOn (has_stopped writer.new) (W.contents (device_in writer.old)) (W.contents (device_in writer.new)) watching result }
{
    let mut watching = watching;
    for _ in 0..MOST_PIECES {
        match watch_sent(watching, writer) {
            Some(now) => watching = now,
            None => return ConnectionPhase::Closing(Served::Asked),
        }
        if watching.taken < watching.out.len() || !watching.has_more() {
            return rested(alloc, watching);
        }
        match refilled(alloc, watching) {
            Some(more) => watching = more,
            None => return ConnectionPhase::Closing(Served::Asked),
        }
    }
    ConnectionPhase::Watching(Watching {
        is_paused: true,
        ..watching
    })
}

//! Watches that go on.
ghost use Rattle.std.specs.Prelude.{◌≡◌, ◌++◌, Some, None, IfSome};
ghost use Rattle.chunked.specs.Bodies.{last_chunk};
ghost use Rattle.http_connection.specs.Looking.{Adds, LooksFrom};
ghost use Rattle.http_connection.specs.Arriving.{MayStand};
ghost use Rattle.http_connection.specs.Phases.{StandsLooked};
ghost use Rattle.http_connection.specs.declared.phase.ConnectionPhase.TheVariants as phase;

use crate::phase::ConnectionPhase;
use crate::watching::Watching;
use api::{Served, Site};
use http_response::last_chunk;
use http_watch::{MOST_IDLE, WatchStanding, take_look};
use std::alloc::Global;

/// Returns a text after another one; nothing where memory ran out.
fn joined(first: Vec<u8>, second: Vec<u8>) -> Option<Vec<u8>>
    ensures { IfSome result (λ text. text.items ≡ first.items ++ second.items) }
{
    if first.is_empty() {
        return Some(second);
    }
    let mut text = first;
    match text.extend_from_slice(&second) {
        Ok(()) => Some(text),
        Err(_) => None,
    }
}

/// Returns a watch that stands here, with more to be written. It is left, unfinished, where that is more than may be left unwritten, or
/// memory ran out.
fn with_text(watching: Watching, text: Vec<u8>, at: Option<WatchStanding>) -> ConnectionPhase
    ensures { Adds watching text.items at result }
{
    let watching = Watching {
        at_once: watching.at_once.max(text.len()),
        ..watching
    };
    if !watching.has_room(watching.left(), text.len()) {
        return ConnectionPhase::Closing(Served::Asked);
    }
    match joined(watching.later, text) {
        Some(later) => ConnectionPhase::Watching(Watching {
            view: watching.view,
            bookmarks: watching.bookmarks,
            at,
            at_once: watching.at_once,
            out: watching.out,
            taken: watching.taken,
            rest: watching.rest,
            pieces: watching.pieces,
            later,
            is_paused: watching.is_paused,
        }),
        None => ConnectionPhase::Closing(Served::Asked),
    }
}

/// Returns a watch that is over after this text, with its end to be written.
pub(crate) fn with_end(watching: Watching, text: Vec<u8>) -> ConnectionPhase
    ensures { Adds watching (text.items ++ last_chunk) None result }
{
    let mut text = text;
    match text.extend_from_slice(last_chunk()) {
        Ok(()) => with_text(watching, text, None),
        Err(_) => ConnectionPhase::Closing(Served::Asked),
    }
}

/// Takes a look of a watch that stands here, and returns where its connection then stands.
fn look_from<S: Site>(
    alloc: Global,
    watching: Watching,
    at: WatchStanding,
    source: &mut S,
) -> ConnectionPhase
    ensures { LooksFrom S.Watches watching source.old source.new (Some at) result }
{
    if at.idle >= MOST_IDLE {
        return with_end(watching, Vec::new(alloc));
    }
    match take_look(alloc, source, &watching.view, watching.bookmarks, at) {
        Ok(looked) => match looked.next {
            Some(next) => with_text(watching, looked.text, Some(next)),
            None => with_end(watching, looked.text),
        },
        Err(_) => ConnectionPhase::Closing(Served::Asked),
    }
}

/// Takes one look of a watch, and returns where its connection then stands: its frames are to be written, and after a refusal, or 1,024
/// looks in a row that gave no line, its end. A watch that is over looks no more. It is left, unfinished, where memory runs out, and
/// where its peer leaves more than 4 MiB unwritten beside what it was given at once.
pub fn look_on<S: Site>(alloc: Global, watching: Watching, source: &mut S) -> ConnectionPhase
    ensures looks { LooksFrom S.Watches watching source.old source.new watching.at result }
    ensures stands { StandsLooked S.Calls S.Lists S.Begins S.Watches source.old source.new (phase.Watching watching) result }
    ensures led { MayStand result }
{
    match watching.at {
        Some(at) => look_from(alloc, watching, at, source),
        None => ConnectionPhase::Watching(watching),
    }
}

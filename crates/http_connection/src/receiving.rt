//! Requests, as their bytes come.
ghost use Rattle.std.specs.Prelude.{◌≡◌, ℕ, List, ◌++◌, true, false, length};
ghost use Rattle.spec_http.specs.Connections.{IsHalfAHead};
ghost use Rattle.http_request_reader.specs.Arriving.{WaitsFor};
ghost use Rattle.api.specs.Responding.{text_of};
ghost use Rattle.http_connection.specs.Arriving.{Arrives, Awaits, IsArriving, IsRefusal};

use crate::arriving::{Arriving, Awaited};
use crate::phase::ConnectionPhase;
use crate::replying::Replying;
use api::{Served, Text, refusal_text};
use http_request_head::FoundHead;
use http_request_head::reading::{LONGEST_HEAD, MOST_FIELDS, find_head};
use http_request_reader::{Arrived, Received, look_at};
use httparse::spans::EMPTY_HEADER_SPAN;
use request_parts::table::Routes;
use std::alloc::Global;

/// Returns where a connection stands that is refused with this.
fn refused(text: Text) -> ConnectionPhase
    ensures { (read : List ℕ) → IsRefusal read (text_of text) → Arrives false read result }
{
    ConnectionPhase::Replying(Replying {
        text,
        taken: 0,
        served: Served::NotAsked,
    })
}

/// Returns whether the bytes are a part of a head.
fn is_half_a_head(bytes: &[u8]) -> bool
    ensures { result ≡ true → IsHalfAHead bytes.now }
{
    if bytes.len() > LONGEST_HEAD {
        return false;
    }
    let mut fields = [EMPTY_HEADER_SPAN; MOST_FIELDS];
    matches!(find_head(bytes, &mut fields), FoundHead::Cut)
}

/// Returns what has to come after bytes that ask nothing before there are so many.
fn awaited_after(bytes: &[u8], needs: usize) -> Awaited
    requires { WaitsFor bytes.now needs }
    ensures { Awaits result bytes.now }
{
    if needs - bytes.len() == 1 && is_half_a_head(bytes) {
        Awaited::HeadEnd
    } else {
        Awaited::Bytes(needs)
    }
}

/// Returns where a connection stands of which these bytes were read.
fn look(alloc: Global, routes: &Routes, bytes: Vec<u8>) -> ConnectionPhase
    ensures { Arrives false bytes.items result }
{
    match look_at(alloc, routes, &bytes) {
        Ok(Arrived::Part(needs)) => {
            let awaited = awaited_after(&bytes, needs);
            ConnectionPhase::Reading(Arriving { bytes, awaited })
        }
        Ok(Arrived::Whole(Received::Asked(asked))) => ConnectionPhase::Asked(asked),
        Ok(Arrived::Whole(Received::Refused(fault))) => refused(refusal_text(alloc, &fault)),
        Ok(Arrived::Whole(Received::Ended)) => unreachable!(),
        Err(_) => refused(Text::OutOfMemory),
    }
}

/// Returns whether bytes are to be looked at that are so many by now: a head whenever more of it has come, as it is refused where nothing
/// can follow that makes it one, and a body once it is whole.
fn is_to_be_looked_at(awaited: Awaited, len: usize) -> bool
    ensures { result ≡ false → (before piece : List ℕ) → length (before ++ piece) ≡ len → Awaits awaited before
        → Awaits awaited (before ++ piece) }
{
    match awaited {
        Awaited::HeadEnd => true,
        Awaited::Bytes(needs) => len >= needs,
    }
}

/// Returns where a connection stands whose request was not whole, after these bytes came: what it is does not depend on the pieces in
/// which they came. Running out of memory is replied.
pub fn arrived(alloc: Global, routes: &Routes, arriving: Arriving, piece: &[u8]) -> ConnectionPhase
    ensures { (read : List ℕ) → IsArriving arriving read → Arrives false (read ++ piece.now) result }
{
    let awaited = arriving.awaited;
    let mut bytes = arriving.bytes;
    if bytes.extend_from_slice(piece).is_err() {
        return refused(Text::OutOfMemory);
    }
    if is_to_be_looked_at(awaited, bytes.len()) {
        look(alloc, routes, bytes)
    } else {
        ConnectionPhase::Reading(Arriving { bytes, awaited })
    }
}

//! Requests, in the bytes that have come so far.
ghost use Rattle.std.specs.Prelude.{◌≡◌, ◌≤◌, IfOk, length, take, Ok};
ghost use Rattle.httparse.specs.Grammar as grammar;
ghost use Rattle.httparse.specs.Spans.{IsRequestAt};
ghost use Rattle.spec_http.specs.Heads.{head_of};
ghost use Rattle.spec_http.specs.Checks.{checked};
ghost use Rattle.spec_http.specs.Connections.{longest_head};
ghost use Rattle.http_request_head.specs.Reading.{IsFound};
ghost use Rattle.http_request_head.specs.declared.found.FoundHead.TheVariants.{Whole};
ghost use Rattle.http_request_reader.specs.Openings.{opening_seen};
ghost use Rattle.http_request_reader.specs.Arriving.{AsksSoFar, IsRefusal, ArrivesAfter};

use crate::answered::refused;
use crate::arrived::Arrived;
use crate::checks::check_head;
use crate::opening::CheckedHead;
use crate::reading::with_body;
use crate::received::Received;
use http_request_head::reading::{LONGEST_HEAD, MOST_FIELDS, find_head};
use http_request_head::{FoundHead, ReadFault, RequestHead};
use httparse::spans::{EMPTY_HEADER_SPAN, HeaderSpan, RequestSpans};
use object_keys::Fault;
use request_parts::table::Routes;
use spec_api::refusals::Part;
use std::alloc::Global;

/// Returns what the bytes of a connection ask that have come so far. Where they ask nothing yet it says how many are needed at least: a
/// caller that comes back only then has a head read twice at most once it is whole, however its body comes.
///
/// The error is out of memory.
pub fn look_at(alloc: Global, routes: &Routes, bytes: &[u8]) -> Result<Arrived, ReadFault>
    ensures asks { IfOk result (λ a. AsksSoFar bytes.now a) }
    ensures refusal { IfOk result (λ a. IsRefusal a) }
{
    let mut fields = [EMPTY_HEADER_SPAN; MOST_FIELDS];
    let front = front_of(bytes);
    match find_head(front, &mut fields) {
        FoundHead::Whole(found) => with_head(alloc, routes, bytes, front, found, &fields),
        FoundHead::IllFormed => Ok(Arrived::Whole(Received::Refused(Fault::BadRequest(
            Part::Head,
        )))),
        FoundHead::TooLarge => Ok(Arrived::Whole(Received::Refused(Fault::TooLarge))),
        FoundHead::Cut => Ok(Arrived::Part(front.len() + 1)),
    }
}

/// Returns as many of the bytes as a head may have.
fn front_of(bytes: &[u8]) -> &[u8]
    ensures { result.now ≡ take longest_head bytes.now }
{
    if bytes.len() > LONGEST_HEAD {
        bytes.split_at(LONGEST_HEAD).0
    } else {
        bytes
    }
}

/// Returns what is asked by a head that was found in the front of these bytes, with what follows it.
fn with_head(
    alloc: Global,
    routes: &Routes,
    bytes: &[u8],
    front: &[u8],
    found: RequestSpans,
    fields: &[HeaderSpan],
) -> Result<Arrived, ReadFault>
    requires front { front.now ≡ take longest_head bytes.now }
    requires found { IsFound front.now fields.now (Whole found) }
    ensures after { (h : grammar.RequestHead) → IsRequestAt front.now fields.now found h
        → ArrivesAfter (checked (head_of h)) found.len bytes.now result }
    ensures refusal { IfOk result (λ a. IsRefusal a) }
{
    let head = RequestHead::new(alloc, front, found, fields)?;
    match check_head(alloc, routes, &head) {
        Ok(opening) => with_opening(alloc, opening, found.len, bytes),
        Err(fault) => match refused(fault) {
            Ok(received) => Ok(Arrived::Whole(received)),
            Err(fault) => Err(fault),
        },
    }
}

/// Returns what is asked by a head whose checks pass, and that ends at this place, with the body that follows it.
fn with_opening(
    alloc: Global,
    opening: CheckedHead<'_>,
    place: usize,
    bytes: &[u8],
) -> Result<Arrived, ReadFault>
    requires place { place ≤ length bytes.now }
    ensures after { ArrivesAfter (Ok (opening_seen opening.entry)) place bytes.now result }
    ensures refusal { IfOk result (λ a. IsRefusal a) }
{
    let follows = &bytes[place..];
    if opening.body_length > follows.len() {
        return match place.checked_add(opening.body_length) {
            Some(needs) => Ok(Arrived::Part(needs)),
            // No memory has room for so many.
            None => Err(ReadFault::Want),
        };
    }
    match with_body(alloc, opening, follows) {
        Ok(received) => Ok(Arrived::Whole(received)),
        Err(fault) => Err(fault),
    }
}

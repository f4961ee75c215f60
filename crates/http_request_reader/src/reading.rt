//! Requests, read from a connection: a head, its checks, and then the body.
ghost use Rattle.std.specs.Prelude.{◌≡◌, ◌≤◌, IfOk, length, drop, true, false, Ok, Err};
ghost use Rattle.httparse.specs.Grammar as grammar;
ghost use Rattle.httparse.specs.Spans.{IsRequestAt};
ghost use Rattle.spec_http.specs.Heads.{head_of};
ghost use Rattle.spec_http.specs.Checks.{checked};
ghost use Rattle.chunked.specs.Devices.{device_of, has_failed};
ghost use Rattle.object_keys.specs.declared.fault.Fault.TheVariants.{NoMemory};
ghost use Rattle.http_request_head.specs.Reading.{IsFound, IsWatched};
ghost use Rattle.http_request_head.specs.declared.fault.ReadFault.TheVariants as fault;
ghost use Rattle.http_request_head.specs.declared.found.FoundHead.TheVariants.{Whole};
ghost use Rattle.http_request_reader.specs.Openings.{opening_seen};
ghost use Rattle.http_request_reader.specs.declared.received.Received.TheVariants as received;
ghost use Rattle.http_request_reader.specs.Receiving.{AsksKnown, Needs, Tells, Says};

use crate::answered::{answered, refused};
use crate::body::read_body;
use crate::checks::check_head;
use crate::opening::CheckedHead;
use crate::received::Received;
use chunked::Watched;
use http_request_head::reading::{MOST_FIELDS, read_head};
use http_request_head::{FoundHead, ReadFault, RequestHead};
use httparse::spans::{EMPTY_HEADER_SPAN, HeaderSpan, RequestSpans};
use object_keys::Fault;
use request_decoding::ask;
use request_parts::table::Routes;
use spec_api::refusals::Part;
use std::alloc::Global;
use std::io::Read;

/// Reads a request from a connection, and returns what is asked. The body is read once the head has passed its checks, and not before.
///
/// The error is out of memory, or the reader's fault, which comes where a call of it fails, or had failed before. No request can be
/// read then, since what was read of this one is lost.
pub fn receive<R: Read + Drop>(
    alloc: Global,
    routes: &Routes,
    reader: &mut Watched<R>,
) -> Result<Received, ReadFault>
    ensures asks { IfOk result (λ r. AsksKnown (R.remaining (device_of reader.old)) r) }
    ensures memory { IfOk result (λ r. r ≡ received.Refused NoMemory → ⊥) }
    ensures watched { IsWatched (has_failed reader.new) result }
    ensures needs { Needs (R.remaining (device_of reader.old)) (R.remaining (device_of reader.new)) result }
    ensures again { has_failed reader.old ≡ true → (result ≡ Err fault.Device) × (reader.new ≡ reader.old) }
{
    let mut bytes = Vec::new(alloc);
    let mut fields = [EMPTY_HEADER_SPAN; MOST_FIELDS];
    match read_head(reader, &mut bytes, &mut fields) {
        Ok(FoundHead::Whole(found)) => after_head(alloc, routes, reader, &bytes, found, &fields),
        Ok(FoundHead::IllFormed) => Ok(Received::Refused(Fault::BadRequest(Part::Head))),
        Ok(FoundHead::TooLarge) => Ok(Received::Refused(Fault::TooLarge)),
        Ok(FoundHead::Cut) => Ok(Received::Ended),
        Err(fault) => Err(fault),
    }
}

/// Returns what is asked by a head that was found, reading what is left of its body.
fn after_head<R: Read + Drop>(
    alloc: Global,
    routes: &Routes,
    reader: &mut Watched<R>,
    bytes: &[u8],
    found: RequestSpans,
    fields: &[HeaderSpan],
) -> Result<Received, ReadFault>
    requires sound { has_failed reader.old ≡ false }
    requires found { IsFound bytes.now fields.now (Whole found) }
    ensures tells { (h : grammar.RequestHead) → IsRequestAt bytes.now fields.now found h
        → Tells (checked (head_of h)) (drop found.len bytes.now) (R.remaining (device_of reader.old)) (R.remaining (device_of reader.new)) result }
    ensures memory { IfOk result (λ r. r ≡ received.Refused NoMemory → ⊥) }
    ensures watched { IsWatched (has_failed reader.new) result }
{
    let head = RequestHead::new(alloc, bytes, found, fields)?;
    match check_head(alloc, routes, &head) {
        Ok(opening) => after_opening(alloc, reader, opening, &bytes[found.len..]),
        Err(fault) => refused(fault),
    }
}

/// Returns what is asked by a head whose checks pass, reading what is left of its body after these bytes.
fn after_opening<R: Read + Drop>(
    alloc: Global,
    reader: &mut Watched<R>,
    opening: CheckedHead<'_>,
    follows: &[u8],
) -> Result<Received, ReadFault>
    requires sound { has_failed reader.old ≡ false }
    ensures tells { Tells (Ok (opening_seen opening.entry)) follows.now (R.remaining (device_of reader.old)) (R.remaining (device_of reader.new)) result }
    ensures memory { IfOk result (λ r. r ≡ received.Refused NoMemory → ⊥) }
    ensures watched { IsWatched (has_failed reader.new) result }
{
    if opening.body_length <= follows.len() {
        return with_body(alloc, opening, follows);
    }
    match read_body(alloc, reader, follows, opening.body_length) {
        Ok(Some(body)) => with_body(alloc, opening, &body),
        Ok(None) => Ok(Received::Ended),
        Err(fault) => Err(fault),
    }
}

/// Returns what is asked by a head whose checks pass, with the body that these bytes begin with.
pub(crate) fn with_body(
    alloc: Global,
    opening: CheckedHead<'_>,
    bytes: &[u8],
) -> Result<Received, ReadFault>
    requires whole { opening.body_length ≤ length bytes.now }
    ensures says { Says (opening_seen opening.entry) bytes.now result }
    ensures memory { IfOk result (λ r. r ≡ received.Refused NoMemory → ⊥) }
{
    let body = &bytes[..opening.body_length];
    let (method, target) = (opening.method, opening.target);
    answered(ask(alloc, method, target, opening.into_query(), body))
}

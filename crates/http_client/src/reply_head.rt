//! Heads of replies.
ghost use Rattle.std.specs.Prelude.{◌≡◌, IfOk, IfErr, false};
ghost use Rattle.httparse.specs.Grammar.{ResponseHead};
ghost use Rattle.httparse.specs.Spans.{IsResponseAt};
ghost use Rattle.chunked.specs.Devices.{device_of, has_failed};
ghost use Rattle.http_client.specs.Heads.{BeginsWithNoHead, IsHeadOf};
ghost use Rattle.http_client.specs.Reading.{IsWatched, IsFound, IfKnown, ReadsHead};
ghost use Rattle.http_client.specs.declared.fault.ReplyFault.TheVariants as fault;

use crate::fault::ReplyFault;
use crate::framing::{Framing, framing_of};
use crate::patience::retry_after_of;
use crate::reading::find_head;
use chunked::Watched;
use http_request_head::reading::MOST_FIELDS;
use http_request_head::request_head::fields_of;
use httparse::spans::{EMPTY_HEADER_SPAN, HeaderSpan, ResponseSpans};
use std::alloc::{AllocError, Global};
use std::io::Read;

/// What counts of a reply's head (RFC 9112, Status Line).
#[derive(Clone, Copy)]
pub struct ReplyHead {
    /// The status code.
    pub code: u16,
    /// How the end of the body is known.
    pub framing: Framing,
    /// How many seconds the server asks to be left alone, if it asks that (RFC 9110, Retry-After).
    pub retry_after: Option<u16>,
}

/// Returns what counts of the head that was found at the front of these bytes.
fn head_of(
    alloc: Global,
    bytes: &[u8],
    found: ResponseSpans,
    spans: &[HeaderSpan],
    most: u32,
) -> Result<ReplyHead, AllocError>
    requires { IsFound bytes.now spans.now found }
    ensures { IfOk result (λ r. (h : ResponseHead) → IsResponseAt bytes.now spans.now found h → IsHeadOf most h r) }
{
    let fields = fields_of(alloc, bytes, &spans[..found.headers])?;
    Ok(ReplyHead {
        code: found.code,
        framing: framing_of(&fields, most),
        retry_after: retry_after_of(&fields),
    })
}

/// Reads the head of a reply, and nothing beyond it, within 16,384 bytes and 64 fields, and says whether its body is longer than so many
/// bytes. The reader is read byte by byte: give one that is buffered.
pub fn read_head<R: Read + Drop>(
    alloc: Global,
    reader: &mut Watched<R>,
    most: u32,
) -> Result<ReplyHead, ReplyFault>
    requires { has_failed reader.old ≡ false }
    ensures read { IfOk result (λ r. (h : ResponseHead) × ReadsHead (R.remaining (device_of reader.old)) (R.remaining (device_of reader.new)) h × IsHeadOf most h r) }
    ensures room { IfErr result (λ f. f ≡ fault.TooLong → ⊥) }
    ensures none { IfErr result (λ f. f ≡ fault.NotAReply → IfKnown (R.remaining (device_of reader.old)) BeginsWithNoHead) }
    ensures watched { IsWatched (has_failed reader.new) result }
{
    let mut bytes = Vec::new(alloc);
    let mut spans = [EMPTY_HEADER_SPAN; MOST_FIELDS];
    match find_head(reader, &mut bytes, &mut spans) {
        Ok(found) => {
            let head = head_of(alloc, &bytes, found, &spans, most)?;
            Ok(head)
        }
        Err(fault) => Err(fault),
    }
}

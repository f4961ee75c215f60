//! Replies, read whole.
ghost use Rattle.std.specs.Prelude.{◌≡◌, ◌≤◌, IfOk, IfErr, vec_len, true, false, Err};
ghost use Rattle.chunked.specs.Devices.{device_of, has_failed};
ghost use Rattle.spec_http.specs.Answers.{Says};
ghost use Rattle.http_client.specs.Heads.{SaysNothing};
ghost use Rattle.http_client.specs.Patience.{AsksPatience};
ghost use Rattle.http_client.specs.Replies.{replied, ReadsReply};
ghost use Rattle.http_client.specs.Reading.{IsWatched, IfKnown, ReadsLongerHead};
ghost use Rattle.http_client.specs.declared.fault.ReplyFault.TheVariants as fault;

use crate::body::read_body;
use crate::fault::ReplyFault;
use crate::framing::Framing;
use crate::reply_head::read_head;
use chunked::Watched;
use std::alloc::Global;
use std::io::Read;

/// A whole reply.
#[derive(Drop)]
pub struct HttpReply {
    /// The status code.
    pub code: u16,
    /// How many seconds the server asks to be left alone, if it asks that: 3,600 where it asks for more (RFC 9110, Retry-After).
    pub retry_after: Option<u16>,
    pub body: Vec<u8>,
}

/// Reads a reply, and nothing beyond it: a head within 16,384 bytes and 64 fields, and the body whose length it states, of so many bytes
/// at most. The reader is read byte by byte where the head is: give one that is buffered. Memory is taken as bytes come,
/// whatever the head states.
///
/// The error is the reader's, where a call of it fails, or had failed before; or that what the peer sent is no whole reply, as where it
/// ends within the body; or that the body is longer, of which nothing is read then; or out of memory.
pub fn read_reply<R: Read + Drop>(
    alloc: Global,
    reader: &mut Watched<R>,
    most: u32,
) -> Result<HttpReply, ReplyFault>
    ensures says { IfOk result (λ r. IfKnown (R.remaining (device_of reader.old)) (λ bytes. Says bytes (replied r))) }
    ensures read { IfOk result (λ r. ReadsReply (R.remaining (device_of reader.old)) (R.remaining (device_of reader.new)) (replied r)) }
    ensures patience { IfOk result (λ r. IfKnown (R.remaining (device_of reader.old)) (λ bytes. AsksPatience bytes r.retry_after)) }
    ensures within { IfOk result (λ r. vec_len r.body ≤ most) }
    ensures long { IfErr result (λ f. f ≡ fault.TooLong → ReadsLongerHead most (R.remaining (device_of reader.old)) (R.remaining (device_of reader.new))) }
    ensures none { IfErr result (λ f. f ≡ fault.NotAReply → IfKnown (R.remaining (device_of reader.old)) SaysNothing) }
    ensures watched { IsWatched (has_failed reader.new) result }
    ensures again { has_failed reader.old ≡ true → (result ≡ Err fault.Device) × (reader.new ≡ reader.old) }
{
    if reader.has_failed() {
        return Err(ReplyFault::Device);
    }
    let head = match read_head(alloc, reader, most) {
        Ok(head) => head,
        Err(fault) => return Err(fault),
    };
    match head.framing {
        Framing::Length(size) => match read_body(alloc, reader, size) {
            Ok(body) => Ok(HttpReply {
                code: head.code,
                retry_after: head.retry_after,
                body,
            }),
            Err(fault) => Err(fault),
        },
        Framing::TooLong => Err(ReplyFault::TooLong),
        Framing::Chunked => Err(ReplyFault::NotAReply),
        Framing::Other => Err(ReplyFault::NotAReply),
    }
}

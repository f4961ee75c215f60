//! Replies, read whole, however the end of their bodies is known.
ghost use Rattle.std.specs.Prelude.{◌≡◌, ◌≤◌, IfOk, IfErr, vec_len, true, false, Err};
ghost use Rattle.chunked.specs.Devices.{device_of, has_failed};
ghost use Rattle.http_client.specs.Bodies.{ReadsBody, HasNoBody, HasLongBody, IsStatedWithin};
ghost use Rattle.http_client.specs.Patience.{AsksPatience};
ghost use Rattle.http_client.specs.Replies.{replied, SaysWhole, SaysNoReply, IsLonger};
ghost use Rattle.http_client.specs.Reading.{IfKnown};
ghost use Rattle.http_client.specs.declared.fault.ReplyFault.TheVariants as fault;
ghost use Rattle.http_client.specs.declared.framing.Framing.TheVariants as framing;

use crate::body::read_body;
use crate::chunks::read_chunks;
use crate::fault::ReplyFault;
use crate::framing::Framing;
use crate::reply::HttpReply;
use crate::reply_head::read_head;
use chunked::{Reader, Watched};
use std::alloc::Global;
use std::io::Read;

/// Reads a body of this length.
fn body_of_length<R: Read + Drop>(
    alloc: Global,
    reader: Watched<R>,
    size: usize,
) -> Result<Vec<u8>, ReplyFault>
    requires { has_failed reader ≡ false }
    ensures read { IfOk result (λ body. ReadsBody (framing.Length size) (R.remaining (device_of reader)) body.items) }
    ensures whole { IfOk result (λ body. vec_len body ≡ size) }
    ensures room { IfErr result (λ f. f ≡ fault.TooLong → ⊥) }
    ensures none { IfErr result (λ f. f ≡ fault.NotAReply → HasNoBody (framing.Length size) (R.remaining (device_of reader))) }
{
    let mut reader = reader;
    match read_body(alloc, &mut reader, size) {
        Ok(body) => Ok(body),
        Err(fault) => Err(fault),
    }
}

/// Reads a body in chunks, of so many bytes at most.
fn body_in_chunks<R: Read + Drop>(
    alloc: Global,
    reader: Watched<R>,
    most: u32,
) -> Result<Vec<u8>, ReplyFault>
    requires { has_failed reader ≡ false }
    ensures read { IfOk result (λ body. ReadsBody framing.Chunked (R.remaining (device_of reader)) body.items) }
    ensures within { IfOk result (λ body. vec_len body ≤ most) }
    ensures long { IfErr result (λ f. f ≡ fault.TooLong → HasLongBody most framing.Chunked (R.remaining (device_of reader))) }
    ensures none { IfErr result (λ f. f ≡ fault.NotAReply → HasNoBody framing.Chunked (R.remaining (device_of reader))) }
{
    let mut chunks = Reader::new(reader);
    match read_chunks(alloc, &mut chunks, most) {
        Ok(body) => Ok(body),
        Err(fault) => Err(fault),
    }
}

/// Reads a body whose end is known in this way, of so many bytes at most.
fn body_framed<R: Read + Drop>(
    alloc: Global,
    reader: Watched<R>,
    framing: Framing,
    most: u32,
) -> Result<Vec<u8>, ReplyFault>
    requires sound { has_failed reader ≡ false }
    requires stated { IsStatedWithin most framing }
    ensures read { IfOk result (λ body. ReadsBody framing (R.remaining (device_of reader)) body.items) }
    ensures within { IfOk result (λ body. vec_len body ≤ most) }
    ensures long { IfErr result (λ f. f ≡ fault.TooLong → HasLongBody most framing (R.remaining (device_of reader))) }
    ensures none { IfErr result (λ f. f ≡ fault.NotAReply → HasNoBody framing (R.remaining (device_of reader))) }
{
    match framing {
        Framing::Length(size) => body_of_length(alloc, reader, size),
        Framing::TooLong => Err(ReplyFault::TooLong),
        Framing::Chunked => body_in_chunks(alloc, reader, most),
        Framing::Other => Err(ReplyFault::NotAReply),
    }
}

/// Reads a reply: a head within 16,384 bytes and 64 fields, and a body of the length that it states, or in chunks, of so many bytes at
/// most. The reader is read byte by byte where the head and the lines of chunks are: give one that is buffered. Memory is taken as
/// bytes come, whatever the head states.
///
/// The error is the reader's, where a call of it fails, or had failed before; or that what the peer sent is no whole reply, as where it
/// ends within the body; or that the body is longer, of which nothing is read where its head states that, and at most a piece beyond the
/// limit where it comes in chunks; or out of memory.
pub fn read_whole<R: Read + Drop>(
    alloc: Global,
    reader: Watched<R>,
    most: u32,
) -> Result<HttpReply, ReplyFault>
    ensures says { IfOk result (λ r. IfKnown (R.remaining (device_of reader)) (λ bytes. SaysWhole bytes (replied r))) }
    ensures patience { IfOk result (λ r. IfKnown (R.remaining (device_of reader)) (λ bytes. AsksPatience bytes r.retry_after)) }
    ensures within { IfOk result (λ r. vec_len r.body ≤ most) }
    ensures long { IfErr result (λ f. f ≡ fault.TooLong → IfKnown (R.remaining (device_of reader)) (IsLonger most)) }
    ensures none { IfErr result (λ f. f ≡ fault.NotAReply → IfKnown (R.remaining (device_of reader)) SaysNoReply) }
    ensures again { has_failed reader ≡ true → result ≡ Err fault.Device }
{
    let mut reader = reader;
    if reader.has_failed() {
        return Err(ReplyFault::Device);
    }
    let head = match read_head(alloc, &mut reader, most) {
        Ok(head) => head,
        Err(fault) => return Err(fault),
    };
    match body_framed(alloc, reader, head.framing, most) {
        Ok(body) => Ok(HttpReply {
            code: head.code,
            retry_after: head.retry_after,
            body,
        }),
        Err(fault) => Err(fault),
    }
}

//! Replies as they are sent: in one write, or in parts where there is no memory for that.
ghost use Rattle.std.specs.Prelude.{◌++◌, codes, decimal, length};
ghost use Rattle.chunked.specs.Writing.{WritesInPlace};
ghost use Rattle.spec_http.specs.Replies.{head_text, phrase, response_text};

use crate::heads::phrase;
use crate::replies::response;
use chunked::{ChunkFault, Watched};
use itoa::Buffer;
use std::alloc::Global;
use std::io::Write;

/// What stands in a head between the phrase and the length of the body.
const UP_TO_LENGTH: &str = "\r\nContent-Type: application/json\r\nContent-Length: ";

/// Writes a text and then a number.
fn send_numbered<W: Write + Drop>(
    text: &str,
    number: u64,
    writer: &mut Watched<W>,
) -> Result<(), ChunkFault>
    ensures { WritesInPlace (text.now ++ decimal number) W.contents writer.old writer.new result }
{
    match writer.send(text.as_bytes()) {
        Ok(()) => {}
        Err(fault) => return Err(fault),
    }
    let mut digits = Buffer::new();
    match writer.send(digits.format(number).as_bytes()) {
        Ok(()) => Ok(()),
        Err(fault) => Err(fault),
    }
}

/// Writes the first line of a reply, up to where it ends.
fn send_status<W: Write + Drop>(code: u16, writer: &mut Watched<W>) -> Result<(), ChunkFault>
    ensures { WritesInPlace (codes "HTTP/1.1 " ++ (decimal code ++ (codes " " ++ phrase code)))
        W.contents writer.old writer.new result }
{
    match send_numbered("HTTP/1.1 ", code as u64, writer) {
        Ok(()) => {}
        Err(fault) => return Err(fault),
    }
    match writer.send(b" ") {
        Ok(()) => {}
        Err(fault) => return Err(fault),
    }
    match writer.send(phrase(code).as_bytes()) {
        Ok(()) => Ok(()),
        Err(fault) => Err(fault),
    }
}

/// Writes the head of a reply with a body of this length.
fn send_head<W: Write + Drop>(
    code: u16,
    body_length: u64,
    writer: &mut Watched<W>,
) -> Result<(), ChunkFault>
    ensures { WritesInPlace (head_text code (codes "Content-Length: " ++ decimal body_length))
        W.contents writer.old writer.new result }
{
    match send_status(code, writer) {
        Ok(()) => {}
        Err(fault) => return Err(fault),
    }
    match send_numbered(UP_TO_LENGTH, body_length, writer) {
        Ok(()) => {}
        Err(fault) => return Err(fault),
    }
    match writer.send(b"\r\nConnection: close\r\n\r\n") {
        Ok(()) => Ok(()),
        Err(fault) => Err(fault),
    }
}

/// Writes a reply in parts. It takes no memory.
fn send_in_parts<W: Write + Drop>(
    code: u16,
    body: &str,
    writer: &mut Watched<W>,
) -> Result<(), ChunkFault>
    ensures { WritesInPlace (response_text code body.now) W.contents writer.old writer.new result }
{
    match send_head(code, body.len() as u64, writer) {
        Ok(()) => {}
        Err(fault) => return Err(fault),
    }
    match writer.send(body.as_bytes()) {
        Ok(()) => Ok(()),
        Err(fault) => Err(fault),
    }
}

/// Writes a reply with a body: in one write where there is memory for it, else in a few. So a reply to what is done already never
/// lacks memory. The error is the writer's; a beginning of the reply may then have been written.
pub fn send_response<W: Write + Drop>(
    alloc: Global,
    code: u16,
    body: &str,
    writer: &mut Watched<W>,
) -> Result<(), ChunkFault>
    ensures { WritesInPlace (response_text code body.now) W.contents writer.old writer.new result }
{
    match response(alloc, code, body) {
        Ok(text) => match writer.send(&text) {
            Ok(()) => Ok(()),
            Err(fault) => Err(fault),
        },
        Err(_) => match send_in_parts(code, body, writer) {
            Ok(()) => Ok(()),
            Err(fault) => Err(fault),
        },
    }
}

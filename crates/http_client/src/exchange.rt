//! A request written, and its reply read.
ghost use Rattle.std.specs.Prelude.{◌≡◌, true, false};
ghost use Rattle.chunked.specs.Devices.{device_of, has_failed};
ghost use Rattle.http_client.specs.Calls.{IsAnswered, IsExchanged, text_of};
ghost use Rattle.http_client.specs.declared.answer.Answer.TheVariants.{NotSent};

use crate::answer::Answer;
use crate::outgoing::{Outgoing, text_of};
use crate::whole::read_whole;
use chunked::Watched;
use std::alloc::Global;
use std::io::{Read, Write};

/// Writes the text of a request, and reads its reply, whose body has a stated length or comes in chunks, of so many bytes at most.
///
/// It is lost where the writer fails, which has written a beginning of the request then; or all of it was written, and no whole reply
/// comes, as where its body is longer, or memory runs out.
pub fn send_and_read<R: Read + Drop, W: Write + Drop>(
    alloc: Global,
    text: &[u8],
    reader: Watched<R>,
    writer: &mut Watched<W>,
    most: u32,
) -> Answer
    requires { has_failed writer.old ≡ false }
    ensures { IsExchanged W.contents text.now most (R.remaining (device_of reader)) writer.old writer.new result }
{
    match writer.send(text) {
        Ok(()) => {}
        Err(_) => return Answer::Lost,
    }
    match read_whole(alloc, reader, most) {
        Ok(reply) => Answer::Replied(reply),
        Err(_) => Answer::Lost,
    }
}

/// Writes a request and reads its reply, whose body has a stated length or comes in chunks, of so many bytes at most.
///
/// It is not sent where the stream had failed before, or memory runs out before the first byte is written: then nothing was written.
/// It is lost where the writer fails, which has written a beginning of the request then; or all of it was written, and no whole reply
/// comes, as where its body is longer, or memory runs out.
pub fn call<R: Read + Drop, W: Write + Drop>(
    alloc: Global,
    request: Outgoing<'_>,
    reader: Watched<R>,
    writer: &mut Watched<W>,
    most: u32,
) -> Answer
    ensures answered { IsAnswered W.contents (text_of request.entry) most (R.remaining (device_of reader)) writer.old writer.new result }
    ensures reader { has_failed reader ≡ true → result ≡ NotSent }
    ensures writer { has_failed writer.old ≡ true → result ≡ NotSent }
{
    if reader.has_failed() || writer.has_failed() {
        return Answer::NotSent;
    }
    match text_of(alloc, request) {
        Ok(text) => send_and_read(alloc, &text, reader, writer, most),
        Err(_) => Answer::NotSent,
    }
}

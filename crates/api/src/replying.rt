//! Replies, as bytes.
ghost use Rattle.api.specs.Replying.{Sends};
ghost use Rattle.api.specs.Responding.{IsReplyTo, IsReplyOf, text_of};
ghost use Rattle.spec_api.specs.Verbs.{refused};
ghost use Rattle.object_keys.specs.Faults.{refusal_of};

use crate::fault::ServeFault;
use crate::response::Text;
use chunked::Watched;
use http_response::{out_of_memory, refusal, response, send_response};
use object_keys::Fault;
use reply::Reply;
use std::alloc::Global;
use std::io::Write;

/// Writes a text.
pub(crate) fn send<W: Write + Drop>(text: &[u8], writer: &mut Watched<W>) -> Result<(), ServeFault>
    ensures { Sends W.contents writer.old writer.new text.now result }
{
    match writer.send(text) {
        Ok(()) => Ok(()),
        Err(_) => Err(ServeFault::Write),
    }
}

/// Writes a reply. It never lacks memory.
pub(crate) fn send_reply<W: Write + Drop>(
    alloc: Global,
    text: &Text,
    writer: &mut Watched<W>,
) -> Result<(), ServeFault>
    ensures { Sends W.contents writer.old writer.new (text_of text.now) result }
{
    match text {
        Text::Whole(bytes) => match send(bytes, writer) {
            Ok(()) => Ok(()),
            Err(fault) => Err(fault),
        },
        Text::Parts(reply) => match send_response(alloc, reply.code, reply.text.as_str(), writer) {
            Ok(()) => Ok(()),
            Err(_) => Err(ServeFault::Write),
        },
        Text::OutOfMemory => match send(out_of_memory(), writer) {
            Ok(()) => Ok(()),
            Err(fault) => Err(fault),
        },
    }
}

/// Returns the reply that refuses a request. Where there is no memory to say why, it says that.
pub fn refusal_text(alloc: Global, fault: &Fault) -> Text
    ensures { IsReplyTo (refused (refusal_of fault.now)) (text_of result) }
{
    match refusal(alloc, fault) {
        Ok(bytes) => Text::Whole(bytes),
        Err(_) => Text::OutOfMemory,
    }
}

/// Returns the reply to what a server answers. It never lacks memory.
pub(crate) fn answer_text(alloc: Global, answer: Result<Reply, Fault>) -> Text
    ensures { IsReplyOf answer (text_of result) }
{
    match answer {
        Ok(reply) => match response(alloc, reply.code, reply.text.as_str()) {
            Ok(bytes) => Text::Whole(bytes),
            Err(_) => Text::Parts(reply),
        },
        Err(fault) => refusal_text(alloc, &fault),
    }
}

//! What a server says to who asks for a watch: that it is open, that what it was to begin after is gone, or a refusal.
ghost use Rattle.std.specs.Prelude.{◌≡◌, IfOk, IfErr, true, Err};
ghost use Rattle.chunked.specs.Devices.{device_of, has_failed};
ghost use Rattle.http_client.specs.Heads.{BeginsWithNoHead};
ghost use Rattle.http_client.specs.Reading.{IsWatched, IfKnown};
ghost use Rattle.http_client.specs.Watches.{IsOpening};
ghost use Rattle.http_client.specs.declared.fault.ReplyFault.TheVariants as fault;
ghost use Rattle.http_client.specs.declared.opening.WatchAnswer.TheVariants as opening;

use crate::fault::ReplyFault;
use crate::framing::Framing;
use crate::limit::LARGEST_BODY;
use crate::reply_head::{ReplyHead, read_head};
use crate::statuses::{GONE, OK};
use chunked::Watched;
use std::alloc::Global;
use std::io::Read;

/// What a server says to who asks for a watch.
#[derive(Clone, Copy, PartialEq, Eq)]
pub enum WatchAnswer {
    /// The watch is open: its body is what follows.
    Open,
    /// What it was to begin after is no longer known (Kubernetes API Concepts, 410 Gone responses).
    Expired,
    /// It is refused.
    Refused {
        /// The status code.
        code: u16,
        /// How many seconds the server asks to be left alone, if it asks that: 3,600 where it asks for more (RFC 9110, Retry-After).
        retry_after: Option<u16>,
    },
}

/// Returns a refusal by its head.
fn refused(head: &ReplyHead) -> WatchAnswer
    ensures { result ≡ opening.Refused head.now.code head.now.retry_after }
{
    WatchAnswer::Refused {
        code: head.code,
        retry_after: head.retry_after,
    }
}

/// Reads what a server says to who asks for a watch, by the head of its answer alone, and nothing beyond that: whatever body follows a refusal,
/// and however its end is known, it is a refusal. An answer with the status 200 whose body does not come in chunks is one too.
///
/// The error is the reader's, where a call of it fails, or had failed before; or that what the peer sent begins with no head; or out of memory.
pub fn open_watch<R: Read + Drop>(
    alloc: Global,
    reader: &mut Watched<R>,
) -> Result<WatchAnswer, ReplyFault>
    ensures opening { IfOk result (IsOpening (R.remaining (device_of reader.old)) (R.remaining (device_of reader.new))) }
    ensures room { IfErr result (λ f. f ≡ fault.TooLong → ⊥) }
    ensures none { IfErr result (λ f. f ≡ fault.NotAReply → IfKnown (R.remaining (device_of reader.old)) BeginsWithNoHead) }
    ensures watched { IsWatched (has_failed reader.new) result }
    ensures again { has_failed reader.old ≡ true → (result ≡ Err fault.Device) × (reader.new ≡ reader.old) }
{
    if reader.has_failed() {
        return Err(ReplyFault::Device);
    }
    let head = match read_head(alloc, reader, LARGEST_BODY) {
        Ok(head) => head,
        Err(fault) => return Err(fault),
    };
    if head.code == GONE {
        return Ok(WatchAnswer::Expired);
    }
    match head.framing {
        Framing::Chunked => {
            if head.code == OK {
                Ok(WatchAnswer::Open)
            } else {
                Ok(refused(&head))
            }
        }
        Framing::Length(_) | Framing::TooLong | Framing::Other => Ok(refused(&head)),
    }
}

//! For how long a server asks to be left alone.
ghost use Rattle.std.specs.Prelude.{◌≡◌};
ghost use Rattle.http_client.specs.Waits.{milliseconds_asked, milliseconds_by};

use crate::answer::Answer;
use crate::statuses::{FIRST_SERVER_ERROR, TOO_MANY_REQUESTS};

/// Returns for how many milliseconds a server asks to be left alone, by the code of its reply and the seconds that it states (RFC 9110,
/// Retry-After). As client-go does, these are heeded only where there were too many requests, or the server failed: each code from 500 on.
pub fn milliseconds_by(code: u16, seconds: Option<u16>) -> u32
    ensures { result ≡ milliseconds_by code seconds }
{
    if code == TOO_MANY_REQUESTS || code >= FIRST_SERVER_ERROR {
        u32::from(seconds.unwrap_or(0)) * 1000
    } else {
        0
    }
}

/// Returns for how many milliseconds a server asks to be left alone by what became of a request.
pub fn milliseconds_asked(answer: &Answer) -> u32
    ensures { result ≡ milliseconds_asked answer.now }
{
    match answer {
        Answer::Replied(reply) => milliseconds_by(reply.code, reply.retry_after),
        Answer::NotSent => 0,
        Answer::Lost => 0,
    }
}

//! How long a connection may stand where it does.
ghost use Rattle.std.specs.Prelude.{◌≡◌};
ghost use Rattle.http_event_loop.specs.Deadlines.{deadline, reading_deadline};

use http_connection::{Arriving, Awaited, ConnectionPhase};

/// How many seconds a peer has for its head, from when it connected.
pub const HEAD_SECONDS: u64 = 10;

/// How many seconds it has for its request, from when it connected.
pub const REQUEST_SECONDS: u64 = 30;

/// How many seconds it may take nothing of what is to be written to it.
pub const WRITING_SECONDS: u64 = 30;

/// How many seconds are waited for the end of what it sends unread.
pub const LINGERING_SECONDS: u64 = 4;

/// Returns how many seconds a request may take that is not whole: fewer as long as its head is not.
fn reading_seconds(arriving: &Arriving) -> u64
    ensures { result ≡ reading_deadline arriving.now }
{
    match arriving.awaited {
        Awaited::HeadEnd => HEAD_SECONDS,
        Awaited::Bytes(_) => {
            if arriving.bytes.is_empty() {
                HEAD_SECONDS
            } else {
                REQUEST_SECONDS
            }
        }
    }
}

/// Returns how many seconds a connection may stand here: while it is read, from when it connected; else from when its peer last took
/// something. None where it waits for nothing of its peer.
pub fn seconds(phase: &ConnectionPhase) -> Option<u64>
    ensures { result ≡ deadline phase.now }
{
    match phase {
        ConnectionPhase::Reading(arriving) => Some(reading_seconds(arriving)),
        ConnectionPhase::Replying(_) | ConnectionPhase::Listing(_) => Some(WRITING_SECONDS),
        ConnectionPhase::Watching(watching) => {
            if watching.has_more() {
                Some(WRITING_SECONDS)
            } else {
                None
            }
        }
        ConnectionPhase::Asked(_) | ConnectionPhase::Answering => None,
        ConnectionPhase::Closing(_) => Some(LINGERING_SECONDS),
    }
}

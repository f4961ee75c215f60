//! What a connection came to.
ghost use Rattle.api.specs.Serving.{served_of};
ghost use Rattle.http_request_reader.specs.Receiving.{said};
ghost use Rattle.std.specs.Prelude.{◌≡◌};

use http_request_reader::Received;

/// What a connection came to, where it was not left.
#[derive(Clone, Copy, PartialEq, Eq)]
pub enum Served {
    /// A whole request was read, and done.
    Asked,
    /// No server was asked: what was read is refused, and its peer may still be sending the rest; or nothing whole was read.
    NotAsked,
}

/// Returns what a connection comes to by what was received.
pub(crate) fn served_by(received: &Received) -> Served
    ensures { result ≡ served_of (said received.now) }
{
    match received {
        Received::Asked(_) => Served::Asked,
        Received::Refused(_) => Served::NotAsked,
        Received::Ended => Served::NotAsked,
    }
}

//! What becomes of the request for a watch.
ghost use Rattle.std.specs.Prelude.{◌≡◌};
ghost use Rattle.api_client.specs.Exchanges.{milliseconds_at};

use http_client::milliseconds_by;

/// What became of the request for a watch, or for a stream of initial events.
#[derive(Clone, Copy, PartialEq, Eq)]
pub enum Opened {
    /// The watch is open.
    Open,
    /// What it was to begin after is no longer known.
    Expired,
    /// It is refused.
    Refused {
        /// The status code.
        code: u16,
        /// How many seconds the server asks to be left alone, if it asks that: 3,600 where it asks for more (RFC 9110, Retry-After).
        retry_after: Option<u16>,
    },
    /// Nothing that can be understood was answered, or nothing was asked.
    Lost,
}

impl Opened {
    /// Returns for how many milliseconds the server asks to be left alone.
    pub fn milliseconds_asked(self) -> u32
        ensures { result ≡ milliseconds_at self }
    {
        match self {
            Opened::Open | Opened::Expired | Opened::Lost => 0,
            Opened::Refused { code, retry_after } => milliseconds_by(code, retry_after),
        }
    }
}

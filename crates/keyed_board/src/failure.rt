//! Why a reconcile of a key failed.
ghost use Rattle.std.specs.Prelude.{◌≡◌};
ghost use Rattle.keyed_board.specs.declared.failure.Failure.TheVariants as failures;

use std::alloc::{AllocError, AllocFailed};
use std::fmt;

/// The status code by which a server says that there were too many requests (RFC 6585, 429 Too Many Requests).
const TOO_MANY_REQUESTS: u16 = 429;

/// The first status code by which a server says that the fault is its own (RFC 9110, Server Error 5xx).
const FIRST_SERVER_ERROR: u16 = 500;

/// How many milliseconds a second has.
const MILLISECONDS: u64 = 1000;

/// Why a reconcile of a key failed. Its text is for who runs the controller.
#[derive(Debug, Clone, Copy, PartialEq, Eq)]
pub enum Failure {
    /// The server refused what was asked, with this status code; and for so many seconds it asks to be left alone, if it says so.
    Refused { code: u16, retry_after: Option<u16> },
    /// Nothing came back: what was asked was not sent, or no whole reply has come, and the server may have done it or not.
    NoReply,
    /// Memory ran out.
    NoMemory,
    /// What is to be changed was shown without a version, so a write could not be refused where another has written since: none was asked for.
    NoVersion,
    /// Another cause, in the words of the controller's author.
    Other(&'static str),
}

impl Failure {
    ghost use Rattle.keyed_board.specs.Patience.{milliseconds_asked};

    /// Returns for how many milliseconds a server asks to be left alone. That counts where it had too many requests (429), or the fault is its own (500
    /// and above), and nowhere else.
    pub fn milliseconds_asked(self) -> u64
        ensures { result ≡ milliseconds_asked self }
    {
        match self {
            Failure::Refused {
                code,
                retry_after: Some(seconds),
            } if code == TOO_MANY_REQUESTS || code >= FIRST_SERVER_ERROR => {
                MILLISECONDS * u64::from(seconds)
            }
            _ => 0,
        }
    }
}

impl fmt::Display for Failure {
    fn fmt<W: fmt::Write>(&self, f: &mut fmt::Formatter<W>) -> fmt::Result {
        match *self {
            Failure::Refused {
                code,
                retry_after: Some(seconds),
            } => write!(
                f,
                "the server answers with {code}, and asks for {seconds} s of patience"
            ),
            Failure::Refused {
                code,
                retry_after: None,
            } => write!(f, "the server answers with {code}"),
            Failure::NoReply => write!(f, "the server does not reply"),
            Failure::NoMemory => write!(f, "no memory"),
            Failure::NoVersion => write!(f, "the object says no version"),
            Failure::Other(words) => write!(f, "{words}"),
        }
    }
}

impl From<AllocError> for Failure {
    ghost from_gives = { λ _ e. e ≡ failures.NoMemory };

    fn from(_: AllocError) -> Failure {
        Failure::NoMemory
    }
}

impl<T: Drop> From<AllocFailed<T>> for Failure {
    ghost from_gives = { λ _ e. e ≡ failures.NoMemory };

    fn from(_: AllocFailed<T>) -> Failure {
        Failure::NoMemory
    }
}

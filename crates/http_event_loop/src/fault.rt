//! Why serving ends.
ghost use Rattle.std.specs.Prelude.{◌≡◌, ◌≢◌};
ghost use Rattle.std.specs.IoError.{error_kind};

use std::io;
use std::io::ErrorKind;
use thiserror::Error;

/// Why a server does not serve, or no longer.
#[derive(Debug, Clone, Copy, PartialEq, Eq, Error)]
pub enum ListenFault {
    /// The port could not be listened on, or its connections no longer be waited for.
    #[error("the port could not be listened on, or its connections no longer be waited for")]
    Listen,
    /// Where the server listens could not be written.
    #[error("where the server listens could not be written")]
    Write,
    /// Out of memory.
    #[error("out of memory")]
    NoMemory,
}

/// Returns why a port is not listened on: out of memory, or it could not be.
pub fn not_listening(error: &io::Error) -> ListenFault
    ensures memory { error_kind error.now ≡ ErrorKind.OutOfMemory → result ≡ ListenFault.NoMemory }
    ensures listen { error_kind error.now ≢ ErrorKind.OutOfMemory → result ≡ ListenFault.Listen }
{
    if error.kind() == ErrorKind::OutOfMemory {
        ListenFault::NoMemory
    } else {
        ListenFault::Listen
    }
}

//! What keeps a server from answering.
ghost use Rattle.std.specs.Prelude.{◌≡◌, ◌≢◌, true};
ghost use Rattle.std.specs.IoError.{error_kind, raw_os_error};
ghost use Rattle.kcp_loopback.specs.Troubles.{LacksDescriptor, is_of_connections};

use std::io;
use std::io::ErrorKind;
use thiserror::Error;

/// The fault of a system call that finds no descriptor left for this process (Linux, errno(3), EMFILE).
const NONE_FOR_PROCESS: i32 = 24;

/// The fault of one that finds none left on the machine (ENFILE).
const NONE_ON_MACHINE: i32 = 23;

/// What keeps who asks a server from an answer that says something.
#[derive(Debug, Clone, Copy, Error)]
pub enum Trouble {
    /// No connection can be made.
    #[error("no connection can be made")]
    Unreachable,
    /// No descriptor is left here for one.
    #[error("no descriptor is left")]
    NoDescriptor,
    /// No memory is left here for one.
    #[error("out of memory")]
    NoMemory,
    /// What it sends in the place of a list, or of frames of a watch, is none.
    #[error("what the server sends is not understood")]
    Unreadable,
    /// What comes is no reply of HTTP.
    #[error("what comes is no reply of HTTP")]
    NoReply,
}

impl Trouble {
    /// Returns what kept a connection from being made.
    pub fn of_error(error: &io::Error) -> Trouble
        ensures descriptor { LacksDescriptor (raw_os_error error.now) → result ≡ Trouble.NoDescriptor }
        ensures memory { (LacksDescriptor (raw_os_error error.now) → ⊥) → error_kind error.now ≡ ErrorKind.OutOfMemory → result ≡ Trouble.NoMemory }
        ensures other { (LacksDescriptor (raw_os_error error.now) → ⊥) → error_kind error.now ≢ ErrorKind.OutOfMemory → result ≡ Trouble.Unreachable }
    {
        if is_without_descriptor(error) {
            return Trouble::NoDescriptor;
        }
        if error.kind() == ErrorKind::OutOfMemory {
            Trouble::NoMemory
        } else {
            Trouble::Unreachable
        }
    }

    /// Returns a number of its own, above 0, by which threads share it.
    pub(crate) fn number(self) -> u64 {
        match self {
            Trouble::Unreachable => 1,
            Trouble::NoDescriptor => 2,
            Trouble::NoMemory => 3,
            Trouble::Unreadable => 4,
            Trouble::NoReply => 5,
        }
    }

    /// Returns whether it keeps connections from being made: it is over once one is. Else it is over once what comes is understood.
    pub(crate) fn is_of_connections(self) -> bool
        ensures { result ≡ is_of_connections self }
    {
        match self {
            Trouble::Unreachable | Trouble::NoDescriptor | Trouble::NoMemory => true,
            Trouble::Unreadable | Trouble::NoReply => false,
        }
    }
}

/// Returns whether an error says that no descriptor is left.
fn is_without_descriptor(error: &io::Error) -> bool
    ensures yes { LacksDescriptor (raw_os_error error.now) → result ≡ true }
    ensures no { result ≡ true → LacksDescriptor (raw_os_error error.now) }
{
    match error.raw_os_error() {
        Some(code) => code == NONE_FOR_PROCESS || code == NONE_ON_MACHINE,
        None => false,
    }
}

//! Why no reply is read.
use std::alloc::{AllocError, AllocFailed};
use thiserror::Error;

/// Why no reply was read.
#[derive(Debug, Clone, Copy, PartialEq, Eq, Error)]
pub enum ReplyFault {
    /// The reader failed, in this call or before it.
    #[error("the reader failed")]
    Device,
    /// What the peer sent is no whole reply, with a head within the limits.
    #[error("no whole reply")]
    NotAReply,
    /// Its body is longer than the limit, as its head states or as what has come is.
    #[error("the body is longer than the limit")]
    TooLong,
    /// Out of memory.
    #[error("out of memory")]
    OutOfMemory,
}

impl From<AllocError> for ReplyFault {
    ghost use Rattle.std.specs.Prelude.{◌≡◌};
    ghost use Rattle.http_client.specs.declared.fault.ReplyFault.TheVariants as fault;

    ghost from_gives = { λ e f. f ≡ fault.OutOfMemory };

    fn from(_error: AllocError) -> ReplyFault {
        ReplyFault::OutOfMemory
    }
}

impl<T: Drop> From<AllocFailed<T>> for ReplyFault {
    ghost use Rattle.std.specs.Prelude.{◌≡◌};
    ghost use Rattle.http_client.specs.declared.fault.ReplyFault.TheVariants as fault;

    ghost from_gives = { λ e f. f ≡ fault.OutOfMemory };

    fn from(_error: AllocFailed<T>) -> ReplyFault {
        ReplyFault::OutOfMemory
    }
}

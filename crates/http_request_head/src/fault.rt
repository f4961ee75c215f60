//! Why no more is read of a connection.
use std::alloc::AllocError;
use thiserror::Error;

/// Why no more was read.
#[derive(Debug, Clone, Copy, PartialEq, Eq, Error)]
pub enum ReadFault {
    /// The reader failed, in this call or before it.
    #[error("the reader failed")]
    Device,
    /// Out of memory. What was read stands, and reading can go on from there.
    #[error("out of memory")]
    Want,
}

impl From<AllocError> for ReadFault {
    ghost use Rattle.std.specs.Prelude.{◌≡◌};
    ghost use Rattle.http_request_head.specs.declared.fault.ReadFault.TheVariants as fault;

    ghost from_gives = { λ e f. f ≡ fault.Want };

    fn from(_error: AllocError) -> ReadFault {
        ReadFault::Want
    }
}

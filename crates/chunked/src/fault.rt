//! Why a body in chunks is not written or read to its end.
use std::alloc::{AllocError, AllocFailed};
use thiserror::Error;

/// Why a chunk was not written, or no more of a body is read.
#[derive(Debug, Clone, Copy, PartialEq, Eq, Error)]
pub enum ChunkFault {
    /// The device failed, in this call or before it.
    #[error("the device failed")]
    Device,
    /// What was read is no body in chunks, or a chunk's line is too long.
    #[error("no body in chunks")]
    Malformed,
    /// The input ended before the body did.
    #[error("the input ends within a body in chunks")]
    Truncated,
    /// Out of memory. Nothing was changed.
    #[error("out of memory")]
    Want,
}

impl From<AllocError> for ChunkFault {
    ghost use Rattle.std.specs.Prelude.{◌≡◌};
    ghost use Rattle.chunked.specs.declared.fault.ChunkFault.TheVariants as fault;

    ghost from_gives = { λ e f. f ≡ fault.Want };

    fn from(_error: AllocError) -> ChunkFault {
        ChunkFault::Want
    }
}

impl<T: Drop> From<AllocFailed<T>> for ChunkFault {
    ghost use Rattle.std.specs.Prelude.{◌≡◌};
    ghost use Rattle.chunked.specs.declared.fault.ChunkFault.TheVariants as fault;

    ghost from_gives = { λ e f. f ≡ fault.Want };

    fn from(_error: AllocFailed<T>) -> ChunkFault {
        ChunkFault::Want
    }
}

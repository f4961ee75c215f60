//! Why a watch is not served to its end.
use object_keys::Fault;
use std::alloc::{AllocError, AllocFailed};
use thiserror::Error;

/// Why a watch that has begun is left before its end.
#[derive(Debug, Clone, Copy, Error)]
pub enum Cut {
    /// The writer failed.
    #[error("the writer failed")]
    Device,
    /// Out of memory.
    #[error("out of memory")]
    NoMemory,
}

/// Why a watch is not served to its end.
#[derive(Debug, Drop, Error)]
pub enum WatchFault {
    /// It is refused, or out of memory as it opens: nothing was written.
    #[error("{0}")]
    Refused(Fault),
    /// It is left unfinished.
    #[error("{0}")]
    Cut(Cut),
}

impl From<AllocError> for Cut {
    ghost use Rattle.std.specs.Prelude.{◌≡◌};
    ghost use Rattle.http_watch.specs.declared.fault.Cut.TheVariants as cut;

    ghost from_gives = { λ e f. f ≡ cut.NoMemory };

    fn from(_error: AllocError) -> Cut {
        Cut::NoMemory
    }
}

impl<T: Drop> From<AllocFailed<T>> for Cut {
    ghost use Rattle.std.specs.Prelude.{◌≡◌};
    ghost use Rattle.http_watch.specs.declared.fault.Cut.TheVariants as cut;

    ghost from_gives = { λ e f. f ≡ cut.NoMemory };

    fn from(_error: AllocFailed<T>) -> Cut {
        Cut::NoMemory
    }
}

//! Why nothing was read.
ghost use Rattle.std.specs.Prelude.{◌≡◌};
ghost use Rattle.selector.specs.declared.faults.PartFault.TheVariants.{NoMemory};

use std::alloc::{AllocError, AllocFailed};
use thiserror::Error;

/// Why no selector was read.
#[derive(Debug, Clone, Copy, Drop, Error)]
pub enum SelectorFault {
    /// A text that is of no form that is read, or a value with a member of a wrong type: a bad request.
    #[error("no selector is written so")]
    Malformed,
    /// A value with a key, an operator or values that do not go: an invalid field.
    #[error("a requirement of the selector is not valid")]
    Invalid,
    /// Memory was wanted and refused.
    #[error("out of memory")]
    NoMemory,
}

/// Why a part was not read.
#[derive(Debug, Clone, Copy, Drop, Error)]
pub enum PartFault {
    #[error("no part of a selector is written so")]
    Refused,
    #[error("out of memory")]
    NoMemory,
}

impl From<AllocError> for PartFault {
    ghost from_gives = { λ _ e. e ≡ NoMemory };

    fn from(_: AllocError) -> PartFault {
        PartFault::NoMemory
    }
}

impl<T: Drop> From<AllocFailed<T>> for PartFault {
    ghost from_gives = { λ _ e. e ≡ NoMemory };

    fn from(_: AllocFailed<T>) -> PartFault {
        PartFault::NoMemory
    }
}

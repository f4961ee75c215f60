//! Why there is no such scope.
ghost use Rattle.std.specs.Prelude.{◌≡◌};
ghost use Rattle.request_encoding.specs.declared.faults.ScopeFault.TheVariants.{NoMemory};

use std::alloc::AllocError;
use thiserror::Error;

/// Why there is no such scope.
#[derive(Clone, Copy, Debug, Drop, Error)]
pub enum ScopeFault {
    /// No namespace can be called so.
    #[error("no namespace can be called so")]
    Namespace,
    /// The text is no selector of labels.
    #[error("the text is no selector of labels")]
    Selector,
    /// Memory was wanted and refused.
    #[error("out of memory")]
    NoMemory,
}

impl From<AllocError> for ScopeFault {
    ghost from_gives = { λ _ e. e ≡ NoMemory };

    fn from(_: AllocError) -> ScopeFault {
        ScopeFault::NoMemory
    }
}

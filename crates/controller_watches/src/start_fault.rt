//! Why a controller is not started.
ghost use Rattle.std.specs.Prelude.{◌≡◌};
ghost use Rattle.request_encoding.specs.declared.faults.ScopeFault.TheVariants.{NoMemory};
ghost use Rattle.controller_watches.specs.declared.start_fault.StartFault.TheVariants as faults;

use request_encoding::ScopeFault;
use std::alloc::{AllocError, AllocFailed};
use std::thread::SpawnError;
use thiserror::Error;

/// Why a controller is not started. Its text is for who gave the watches.
#[derive(Debug, Clone, Copy, Error)]
pub enum StartFault {
    /// There is no such scope as a watch asks for, or no memory.
    #[error("{text}", text = scope_text(*.0))]
    Scope(ScopeFault),
}

/// Returns what a fault of a watch's scope is called.
fn scope_text(fault: ScopeFault) -> &'static str {
    match fault {
        ScopeFault::Namespace => "a watch names a namespace that there cannot be",
        ScopeFault::Selector => "a watch has a selector that cannot be understood",
        ScopeFault::NoMemory => "no memory",
    }
}

impl From<ScopeFault> for StartFault {
    ghost from_gives = { λ fault e. e ≡ faults.Scope fault };

    fn from(fault: ScopeFault) -> StartFault {
        StartFault::Scope(fault)
    }
}

impl From<AllocError> for StartFault {
    ghost from_gives = { λ _ e. e ≡ faults.Scope NoMemory };

    fn from(_: AllocError) -> StartFault {
        StartFault::Scope(ScopeFault::NoMemory)
    }
}

impl<T: Drop> From<AllocFailed<T>> for StartFault {
    ghost from_gives = { λ _ e. e ≡ faults.Scope NoMemory };

    fn from(_: AllocFailed<T>) -> StartFault {
        StartFault::Scope(ScopeFault::NoMemory)
    }
}

// The system refuses a thread where it has no room for one.
impl<F: Drop> From<SpawnError<F>> for StartFault {
    ghost from_gives = { λ _ e. e ≡ faults.Scope NoMemory };

    fn from(_: SpawnError<F>) -> StartFault {
        StartFault::Scope(ScopeFault::NoMemory)
    }
}

impl StartFault {
    ghost use Rattle.std.specs.Prelude.{◌≡◌};
    ghost use Rattle.controller_watches.specs.Watched.{wants_memory};

    /// Returns whether it is memory that was wanted: the watches may be as they have to be.
    pub fn wants_memory(self) -> bool
        ensures { result ≡ wants_memory self }
    {
        matches!(self, StartFault::Scope(ScopeFault::NoMemory))
    }
}

//! Running out of memory.
use std::alloc::{AllocError, AllocFailed};
use thiserror::Error;

/// Memory was wanted and refused.
#[derive(Debug, Clone, Copy, Error)]
#[error("out of memory")]
pub struct Want;

impl From<AllocError> for Want {
    fn from(_error: AllocError) -> Want {
        Want
    }
}

impl<T: Drop> From<AllocFailed<T>> for Want {
    fn from(_error: AllocFailed<T>) -> Want {
        Want
    }
}

//! Why a connection is left.
use thiserror::Error;

/// Why a connection is left before its reply is whole.
#[derive(Debug, Clone, Copy, PartialEq, Eq, Error)]
pub enum ServeFault {
    /// The reader failed before a request was whole: nothing was asked, and nothing written.
    #[error("the reader failed")]
    Read,
    /// The writer failed: a beginning of the reply was written.
    #[error("the writer failed")]
    Write,
    /// Out of memory within a watch, which is seen to be cut.
    #[error("out of memory")]
    NoMemory,
}

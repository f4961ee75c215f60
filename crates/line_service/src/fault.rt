//! Why a run ends before its input does.
use thiserror::Error;

/// Why a run ended before the end of its input.
#[derive(Debug, Clone, Copy, PartialEq, Eq, Error)]
pub enum RunFault {
    /// A line could not be read: the reader failed, and its flag is up.
    #[error("a line could not be read")]
    Read,
    /// A reply could not be written or flushed: the writer failed, and its flag is up.
    #[error("a reply could not be written")]
    Write,
    /// There was no memory to read a line or to answer it.
    #[error("out of memory")]
    Want,
}

//! Why a relay ends before its lines do.
use line_service::RunFault;
use thiserror::Error;

/// Why a relay ended before the end of its lines.
#[derive(Debug, Clone, Copy, Error)]
pub enum RelayFault {
    /// A line could not be read or its reply not be written, or there was no memory.
    #[error("{0}")]
    Run(RunFault),
    /// The server could not be reached, or gave no whole reply.
    #[error("the server gave no whole reply")]
    NoReply,
}

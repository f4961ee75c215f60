//! What keeps objects from coming.
use thiserror::Error;

/// What keeps the objects of a kind from being listed or watched.
#[derive(Debug, Clone, Copy, PartialEq, Eq, Error)]
pub enum Trouble {
    /// No connection comes about, or it ends before a reply is whole; or a request is not sent, as where it is too large or memory runs out.
    #[error("the server does not reply")]
    NoReply,
    /// Lists are refused with this status code (RFC 9110, Status Codes).
    #[error("the server answers lists with {0}")]
    ListsRefused(u16),
    /// Watches are refused with this status code, or streams of initial events, which are watches too.
    #[error("the server answers watches with {0}")]
    WatchesRefused(u16),
    /// What comes in the place of a list, or of frames of a watch, is none.
    #[error("what the server sends is not understood")]
    NotUnderstood,
}

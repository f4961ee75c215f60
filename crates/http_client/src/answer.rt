//! What becomes of a request.
use crate::reply::HttpReply;

/// What became of a request.
#[derive(Drop)]
pub enum Answer {
    /// A server replied.
    Replied(HttpReply),
    /// Nothing was written of it.
    NotSent,
    /// It was written, whole or in part, and no whole reply has come: a server may have done it or not.
    Lost,
}

//! What is found in bytes.
use httparse::spans::RequestSpans;

/// What bytes begin with.
#[derive(Clone, Copy, PartialEq, Eq)]
pub enum FoundHead {
    /// A whole head, with where its parts are.
    Whole(RequestSpans),
    /// What is no head, whatever follows.
    IllFormed,
    /// A head that is longer than 16,384 bytes, or has more than 64 fields.
    TooLarge,
    /// A part of a head, and nothing after it.
    Cut,
}

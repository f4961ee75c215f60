//! What is asked by bytes that have come so far.
use crate::received::Received;

/// What the bytes of a connection ask that have come so far.
#[derive(Drop)]
pub enum Arrived {
    /// Nothing yet; nor do they, whatever follows, before there are so many in all.
    Part(usize),
    /// All that the connection asks, whatever follows: a request, or a refusal.
    Whole(Received),
}

//! A reply that is being written.
use api::{Served, Text};

/// A reply that is being written.
#[derive(Drop)]
pub struct Replying {
    /// The whole reply.
    pub text: Text,
    /// How many of its bytes were written.
    pub taken: usize,
    /// What the connection came to: whether its peer may still be sending.
    pub served: Served,
}

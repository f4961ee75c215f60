//! Whether a follower goes on.

/// Whether a follower goes on.
#[derive(Clone, Copy)]
pub enum Onward {
    /// It goes on.
    GoOn,
    /// It stops.
    Stop,
}

//! Runs that did not come to their end.

/// Why not all steps were taken: after so many the next one ran out of memory.
#[derive(Clone, Copy)]
pub struct Stopped {
    /// How many steps were taken.
    pub taken: usize,
}

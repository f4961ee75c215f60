//! Where a loop waits.
use mio::Poll;

/// Where one of some loops waits.
#[derive(Drop)]
pub struct LoopPlace {
    pub(crate) poll: Poll,
    pub(crate) number: usize,
}

impl LoopPlace {
    /// Returns the number of the loop, by which its writes are told.
    pub fn number(&self) -> usize {
        self.number
    }
}

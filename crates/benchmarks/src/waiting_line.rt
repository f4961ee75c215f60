//! What a benchmark runs: a line of keys.
use object_keys::WorkKey;
use std::alloc::AllocError;
use workqueue::Queue;

/// Keys that wait in a line, and keys that were handed out.
pub trait WaitingLine {
    /// Puts a key at the end of the line.
    fn add(&mut self, key: WorkKey) -> Result<(), AllocError>;

    /// Hands out the first key.
    fn get(&mut self) -> Result<Option<WorkKey>, AllocError>;

    /// Takes back a key that was handed out.
    fn done(&mut self, key: &WorkKey);
}

impl WaitingLine for Queue {
    fn add(&mut self, key: WorkKey) -> Result<(), AllocError> {
        Queue::add(self, key)
    }

    fn get(&mut self) -> Result<Option<WorkKey>, AllocError> {
        Queue::get(self)
    }

    fn done(&mut self, key: &WorkKey) {
        Queue::done(self, key);
    }
}

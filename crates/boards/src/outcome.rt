//! How a worker's turn went.

/// How a worker's turn with a key went.
#[derive(Clone, Copy)]
pub enum Outcome {
    /// All is done.
    Done,
    /// All is done for now: the key is to be looked at again after so many milliseconds.
    LookAgain { milliseconds: u64 },
    /// It failed: the key is to be looked at again after its backoff, and after at least so many milliseconds.
    Failed { at_least: u64 },
}

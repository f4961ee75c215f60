//! How a worker's turn went.
use crate::failure::Failure;

/// How a worker's turn with a key went.
#[derive(Clone, Copy)]
pub enum Outcome {
    /// All is done.
    Done,
    /// All is done for now: the key is to be looked at again after so many milliseconds.
    LookAgain { milliseconds: u64 },
    /// It failed, for this cause: the key is to be looked at again after its backoff, and no sooner than a server asks that refused it.
    Failed(Failure),
}

//! What a look of a watch gave.
use crate::standing::WatchStanding;

/// What a look of a watch gave.
#[derive(Drop)]
pub struct Looked {
    /// Its frames, as chunks: nothing where it gave no line.
    pub text: Vec<u8>,
    /// Where the watch then stands: nowhere after a refusal, which is its last frame.
    pub next: Option<WatchStanding>,
}

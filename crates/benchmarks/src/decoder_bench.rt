//! Feeds the decoder of frames for a benchmark: `benchmarks decoder PIECE MEBIBYTES FRAME` makes as many frames of FRAME bytes
//! as go into so many MiB, feeds them in pieces of PIECE bytes, and writes how many frames came out.

use crate::failures::Failure;
use crate::sizes::Sizes;
use std::alloc::Global;

/// Returns what the arguments ask for.
fn asked(words: &[String]) -> Option<Sizes> {
    let [piece, mebibytes, frame] = words else {
        return None;
    };
    Sizes::read(piece.as_str(), mebibytes.as_str(), frame.as_str())
}

/// Returns the number of frames that come out.
fn frames(alloc: Global, asked: Sizes) -> Result<u64, Failure> {
    let input = crate::decoder_feeding::input(alloc, asked.frame, asked.total)?;
    crate::decoder_feeding::count(alloc, input.as_slice(), asked.piece)
}

/// Measures what the words ask for, and returns what came of it, as a text.
pub fn run(alloc: Global, words: &[String]) -> Result<String, Failure> {
    let Some(asked) = asked(words) else {
        return Err(Failure::Arguments);
    };
    let count = frames(alloc, asked)?;
    Ok(format!(in alloc; "{count} frames")?)
}

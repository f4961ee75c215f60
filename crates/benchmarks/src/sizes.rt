//! The sizes that the benchmark of the decoder is asked for.
ghost use Rattle.std.specs.Prelude.{◌≤◌};

const MEBIBYTE: usize = 1_048_576;

/// The most MiB that are fed.
const MOST_MEBIBYTES: usize = 1024;

/// The fewest bytes of a frame; its own members take about 250.
pub const SHORTEST_FRAME: usize = 512;

/// The most bytes of a frame, its newline counted.
pub const LONGEST_FRAME: usize = 2_097_152;

/// The sizes that the arguments give, in bytes.
#[derive(Clone, Copy)]
pub struct Sizes {
    pub piece: usize,
    /// The most that is fed in all.
    pub total: usize,
    pub frame: usize,
    ghost piece_takes_bytes: { 1 ≤ piece },
    ghost frame_has_room: { 512 ≤ frame },
}

impl Sizes {
    /// Reads the bytes of a piece, the MiB in all and the bytes of a frame; none where one is no number or out of range.
    pub fn read(piece: &str, mebibytes: &str, frame: &str) -> Option<Sizes> {
        let piece = piece.parse::<usize>().ok()?;
        let mebibytes = mebibytes.parse::<usize>().ok()?;
        let frame = frame.parse::<usize>().ok()?;
        if piece == 0
            || mebibytes > MOST_MEBIBYTES
            || frame < SHORTEST_FRAME
            || frame > LONGEST_FRAME
        {
            return None;
        }
        Some(Sizes {
            piece,
            total: mebibytes * MEBIBYTE,
            frame,
        })
    }
}

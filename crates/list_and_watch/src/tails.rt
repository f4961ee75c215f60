//! The frame of a watch that is not whole yet.
ghost use Rattle.std.specs.Prelude.{◌≡◌, ◌-◌, length, drop};
ghost use Rattle.framing.specs.Lines.{IsPartial};

use crate::falling::falls;
use framing::scan::first_newline;
use std::alloc::{AllocError, Global};

/// The bytes of a watch since its last newline. They are looked at again where what follows them cannot be read.
#[derive(Drop)]
pub(crate) struct Tail {
    bytes: Vec<u8>,
}

/// Returns the bytes after the last newline.
fn after_lines(bytes: &[u8]) -> &[u8]
    ensures end { result.now ≡ drop (length bytes.now - length result.now) bytes.now }
    ensures partial { IsPartial result.now }
{
    let mut rest = bytes;
    while let Some(at) = first_newline(rest, 0) {
        rest = rest.split_at(at).1.split_at(1).1;
    }
    rest
}

impl Tail {
    /// Returns that nothing came yet.
    pub(crate) fn new(alloc: Global) -> Tail {
        Tail {
            bytes: Vec::new(alloc),
        }
    }

    /// Takes in the next piece. The error is running out of memory.
    pub(crate) fn push(&mut self, piece: &[u8]) -> Result<(), AllocError> {
        let rest = after_lines(piece);
        if rest.len() < piece.len() {
            self.bytes.clear();
        }
        self.bytes.extend_from_slice(rest)
    }

    /// Returns whether the frames that are whole with the next piece name a revision below the last one, or below one before it. Where memory
    /// runs out it does not say so.
    pub(crate) fn falls(&mut self, alloc: Global, piece: &[u8], last: u64) -> bool {
        match self.bytes.extend_from_slice(piece) {
            Ok(()) => falls(alloc, self.bytes.as_slice(), last).unwrap_or(false),
            Err(_) => false,
        }
    }
}

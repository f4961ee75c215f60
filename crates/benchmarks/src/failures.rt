//! Why nothing was measured.
use framing::Want;
use std::alloc::AllocError;

/// Why nothing was measured.
#[derive(Clone, Copy)]
pub enum Failure {
    /// The arguments ask for nothing that can be measured.
    Arguments,
    /// Memory was wanted and refused.
    Memory,
    /// A line was no frame.
    Frame,
}

impl Failure {
    /// Returns what it is called on standard error.
    pub fn text(self) -> &'static str {
        match self {
            Failure::Arguments => "bad arguments",
            Failure::Memory => "no memory",
            Failure::Frame => "a fault in place of a frame",
        }
    }

    /// Returns the status of the program.
    pub fn status(self) -> u8 {
        match self {
            Failure::Arguments => 2,
            Failure::Memory | Failure::Frame => 1,
        }
    }
}

impl From<Want> for Failure {
    fn from(_want: Want) -> Failure {
        Failure::Memory
    }
}

impl From<AllocError> for Failure {
    fn from(_error: AllocError) -> Failure {
        Failure::Memory
    }
}

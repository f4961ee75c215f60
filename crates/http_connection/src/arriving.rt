//! A request that is not whole.
ghost use Rattle.std.specs.Prelude.{[]};
ghost use Rattle.http_connection.specs.Arriving.{IsArriving};

use std::alloc::Global;

/// What has to come before a request can be whole.
#[derive(Clone, Copy)]
pub enum Awaited {
    /// The end of its head.
    HeadEnd,
    /// So many bytes in all.
    Bytes(usize),
}

/// A request that is not whole.
#[derive(Drop)]
pub struct Arriving {
    /// All that was read.
    pub bytes: Vec<u8>,
    /// What has to come.
    pub awaited: Awaited,
}

impl Arriving {
    /// Returns the request of a connection of which nothing was read.
    pub fn new(alloc: Global) -> Arriving
        ensures { IsArriving result [] }
    {
        Arriving {
            bytes: Vec::new(alloc),
            awaited: Awaited::Bytes(1),
        }
    }
}

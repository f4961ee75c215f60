//! Who is told of the writes of a seat.
use desk::Listener;
use http_event_loop::Loops;
use spec_api::kinds::Kind;
use std::sync::Wait;

/// Tells all loops of each write, so that the watches of its kind are looked at. A loop that writes itself looks before it waits.
#[derive(Drop)]
pub struct Ringer<'a> {
    pub(crate) loops: &'a Loops,
    /// The number of the loop that writes, if one does.
    pub(crate) number: Option<usize>,
}

impl Listener for Ringer<'_> {
    ghost use Rattle.kcp_loopback.specs.Asking.{Rings};

    ghost Hears = { Rings };

    fn wrote<R: Wait>(&mut self, _rt: &R, kind: Kind) {
        self.loops.wrote(kind, self.number);
    }
}

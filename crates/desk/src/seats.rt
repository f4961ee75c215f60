//! A pass with what its thread needs to ask at the desk.
ghost use Rattle.desk.specs.Desks.{IsPassAt};

use crate::askings::Asking;
use crate::desks::{Desk, StorePass};

/// A pass at its desk, with what a thread needs to ask there: how it waits, and what is told of its writes.
#[derive(Drop)]
pub struct Seat<'a, A: Asking, L, R> {
    pub(crate) desk: &'a Desk<A>,
    pub(crate) pass: StorePass,
    pub(crate) rt: &'a R,
    pub(crate) listener: L,
    ghost sits: { IsPassAt desk.now pass },
}

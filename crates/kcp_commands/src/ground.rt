//! What the threads of a server stand on.
use desk::{Desk, Readable};
use std::alloc::Global;

/// A desk, and the system that its threads ask.
#[derive(Drop)]
pub struct Ground<'a, R> {
    pub rt: &'a R,
    pub alloc: Global,
    pub desk: &'a Desk<Readable>,
}

//! What a worker works with.
use crate::gates::Gate;
use crate::signals::Signals;
use std::alloc::Global;

/// What a worker works with beside its pass: its listers, its server, and what it shares with the other threads.
#[derive(Drop)]
pub struct Tools<'a, R, L: Drop, A: Drop, G> {
    pub rt: &'a R,
    pub alloc: Global,
    pub signals: &'a Signals,
    pub gate: &'a G,
    pub listers: L,
    pub api: A,
}

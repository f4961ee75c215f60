//! An environment as threads borrow it.
use crate::environments::Environment;
use manager::Signals;
use std::alloc::Global;

/// The environment of a test as its threads borrow it, and the signals that stop them.
#[derive(Drop)]
pub struct Scene<'a, R> {
    pub rt: &'a R,
    pub alloc: Global,
    pub environment: &'a Environment,
    pub signals: &'a Signals,
}

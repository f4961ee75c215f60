//! What controllers have asked for and not yet seen.
#![tactic(auto)]

mod expectation;
mod owners;
mod table;

pub use crate::table::Table;

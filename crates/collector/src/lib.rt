//! The garbage collector: what it reads live, and its plan, which deletes what has no owner any more, and finishes what is
//! deleted before or after its dependents.
#![tactic(auto)]

pub(crate) mod commands;
pub(crate) mod dependents;
pub(crate) mod edits;
pub(crate) mod finishing;
mod planning;
mod reading;
pub(crate) mod standings;

pub use planning::plan;
pub use reading::asks;

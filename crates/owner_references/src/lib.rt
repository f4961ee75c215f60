//! Owner references: whom an object names as its owner, and as its controller, and copies of objects that name others.
#![tactic(auto)]

pub mod controlled_by;
pub mod edits;
pub mod references;
pub mod texts;

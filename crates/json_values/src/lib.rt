//! JSON values: what is asked of them and done to them, their members, and merge patches.
#![tactic(auto)]

pub mod members;
pub mod merging;
pub mod values;

pub use merging::merge;

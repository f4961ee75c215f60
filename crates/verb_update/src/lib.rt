//! Objects in the place of others: updates, merge patches, and updates of the status.
#![tactic(auto)]

pub mod patch;
mod status;
pub mod update;

pub use status::update_status;

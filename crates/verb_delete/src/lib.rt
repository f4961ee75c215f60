//! Deletes: objects removed or being deleted from then on, and what a delete is answered.
#![tactic(auto)]

pub mod delete;

//! Laws of informers: what a published map shows, and whom a change makes look again.
#![tactic(auto)]

pub mod owed_laws;
pub mod publish_laws;

//! The Deployment controller: what it commands for one Deployment, of what a worker has looked at in its turn.
#![tactic(auto)]

pub(crate) mod ages;
pub(crate) mod cleaning;
pub(crate) mod edits;
pub(crate) mod hashes;
pub(crate) mod making;
pub(crate) mod managed;
pub(crate) mod pace;
mod planning;
pub(crate) mod recreating;
pub(crate) mod revisions;
pub(crate) mod rolling;
pub(crate) mod rolling_numbers;
pub(crate) mod rollout;
pub(crate) mod scaling;
pub(crate) mod statuses;
pub(crate) mod templates;

pub use planning::{asks, plan};

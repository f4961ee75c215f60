//! The ReplicaSet controller: what it reads live and commands for one set, of what a worker has read in its turn.
#![tactic(auto)]

mod asking;
pub(crate) mod claim_commands;
pub(crate) mod claims;
pub(crate) mod costs;
pub(crate) mod looked_at;
pub(crate) mod new_pods;
pub(crate) mod nodes;
pub(crate) mod own_pods;
mod planning;
pub(crate) mod pods;
pub(crate) mod ranks;
pub(crate) mod references;
pub(crate) mod relations;
pub(crate) mod scaling;
pub(crate) mod statuses;
pub(crate) mod victims;

pub use asking::asks;
pub use planning::plan;

//! What follows one kind in the simulated cluster: an open watch, a reflector, a published map, and changes that are still to be handled.
//!
//! A follower keeps no server: each move that asks for something is given one, and has to be given the same each time, as `sim_cluster`
//! does for all four kinds. A move that runs out of memory can be taken again.
#![tactic(auto)]

mod beginnings;
mod followers;
mod links;
mod notifications;
mod openings;
mod outcomes;

pub use followers::SimulatedFollower;
pub use links::Link;
pub use notifications::{Applied, Notification, apply_all};
pub use openings::InitialBacklog;
pub use outcomes::ClusterOutcome;

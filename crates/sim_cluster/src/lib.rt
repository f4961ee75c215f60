//! `Cluster`: the simulated server and its followers, step by step.
//!
//! A cluster takes no step of its own: who calls it says what every actor does, and in which order. Nothing of its journal is ever dropped,
//! so that it grows with each write. `sim_manager` has workers beside one, and `world_tests` takes random steps.
#![tactic(auto)]

mod changes;
mod clusters;
mod requested;
mod stopped;

pub use clusters::Cluster;
pub use stopped::Stopped;

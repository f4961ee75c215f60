//! `Step`, `Config` and `Action`: what can happen in the simulated world, and which of it a line asks for.
//!
//! A line of no form is no error here: it is a request, which the server refuses as one that cannot be read. Whether a step is open where
//! it is taken, only the world knows that takes it. `docs/SIMULATE.md` lists the lines.
#![tactic(auto)]

mod actions;
mod asked;
mod config;
mod moves;
mod plane_steps;
mod steps;
mod words;

pub use actions::{Action, Delivery};
pub use asked::step_asked;
pub use config::Config;
pub use moves::Move;
pub use plane_steps::PlaneStep;
pub use spec_sim::initial_syncs::InitialSync;
pub use steps::Step;

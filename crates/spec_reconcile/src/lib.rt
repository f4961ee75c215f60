//! What controllers plan, as mathematics: what they read live, and what they command of what a worker has read in its turn.
#![tactic(auto)]

mod rollouts;
mod standing;

pub use rollouts::{Pace, Summary, Tally};
pub use standing::Standing;

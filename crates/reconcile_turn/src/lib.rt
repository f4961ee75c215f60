//! `Turn`: a worker's turn as a value: looks, live reads, a plan, its commands one after another, and what each is answered.
//!
//! A turn does nothing itself: its caller does what `next` names, and tells it what came of that. A command whose answer was lost may have
//! been carried out: nothing more is issued in that turn. `manager_worker` drives turns at a server, `sim_manager` in the simulated world.
#![tactic(auto)]

pub mod answers;
mod expected;
pub mod next_steps;
pub mod observing;
pub(crate) mod planning;
pub mod pods;
pub mod requesting;
pub mod sets;
pub mod sightings;
pub mod sights;
pub mod stages;
pub(crate) mod turn;

pub use answers::CommandAnswer;
pub use expected::Expected;
pub use next_steps::NextStep;
pub use sights::Sight;
pub use turn::Turn;

//! The board that the workers of controllers share: the work queue, the keys with a delay, the failures in a row, what is
//! expected, and the time. Each call is one step.
#![tactic(auto)]

mod aged_out;
mod board;
mod expected;
pub mod laws;
mod observation;

pub use aged_out::AgedOut;
pub use board::Board;
pub use observation::{Observation, Owner};

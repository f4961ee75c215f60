//! A board of keys of any type that workers share: the work queue, the keys with a delay, the failures in a row, and the time. Each
//! call is one step.
#![tactic(auto)]

mod board;
pub mod board_laws;
mod failure;
mod outcome;

pub use board::KeyedBoard;
pub use failure::Failure;
pub use outcome::Outcome;

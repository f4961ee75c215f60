//! A worker's turns at a server: it takes a key, looks at what is published, reads what is live, and issues what its controller plans, one
//! command after another.
#![tactic(auto)]

pub mod answers;
mod gates;
pub mod laws;
mod looking;
mod patience;
mod signals;
pub mod steps;
mod time_signals;
mod tools;
pub mod turning;
mod working;

pub use gates::{Gate, Open};
pub use looking::Looking;
pub use signals::Signals;
pub use time_signals::TimeSignals;
pub use tools::Tools;
pub use working::Worker;

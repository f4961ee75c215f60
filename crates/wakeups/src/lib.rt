//! A bell by which a write wakes the threads that wait for it, and a stop that all threads heed.
#![tactic(auto)]

mod bell;
mod stop;

pub use bell::Bell;
pub use stop::Stop;

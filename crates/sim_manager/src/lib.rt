//! The controller manager in code: the board, and workers that take turns by it over a simulated cluster. Each action is one atomic step
//! of one worker, exactly the definition's; one that runs out of memory changes nothing.
#![tactic(auto)]

mod acting;
mod issuing;
mod manager;
mod outcomes;
mod seeing;
mod told_outcomes;

pub use manager::Manager;
pub use outcomes::WorkOutcome;
pub use sim_worker_slots::Issued;
pub use told_outcomes::ToldOutcome;

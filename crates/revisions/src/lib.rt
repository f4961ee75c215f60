//! The plain list of writes, and what was there at each revision.
#![tactic(auto)]

mod changes;
mod journal;
pub mod making;
pub mod past;
pub mod watched;

pub use journal::Journal;
pub use meta::Event;
pub use watched::WatchedEvents;

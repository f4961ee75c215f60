//! What stands between a run and a controller: which changes it is told of, where several watches name a kind, and what is told of keys whose reconcile
//! fails.
#![tactic(auto)]

pub mod key_notes;
pub mod note_laws;
mod scoped;
mod telling;

pub use scoped::Scoped;
pub use telling::Telling;

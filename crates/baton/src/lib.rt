//! A lock whose passes know its history: a baton has one state, which one pass at a time holds. Whoever takes it learns all
//! that has happened, and the state is what that gives. Passes that meet find that one has seen all that the other has,
//! and that the entries of each stand in it. What passes know exists in proofs alone, and costs nothing. Who finds the state
//! taken sleeps until it is given.
#![tactic(auto)]

mod batons;
mod event_count;
mod held;
mod laws;
mod opening;
pub mod rules;
mod steps;
pub mod views;

pub use batons::{Baton, Pass};
pub use held::Held;
pub use laws::{EntryMade, Law};

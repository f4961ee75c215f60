//! What follows of a change for the product's controllers, as the event handlers of client-go do it: which work keys it owes, and which pods it shows to
//! the expectations of their ReplicaSets.
//!
//! Each change is to be handled once and in order, against what is published of all kinds by then: a creation that is observed twice counts twice.
//! `manager::Handler` handles changes so.
#![tactic(auto)]

mod key_lists;
mod looking;
mod owed;
mod rollouts;
mod sets;
mod showing;

pub use owed::keys_of;
pub use showing::{object_in, observations};

//! Live reads: what an answer to the request for an object says of it.
#![tactic(auto)]

mod found;

pub use found::{FoundObject, can_be, found_in};

//! Laws of plans that are empty: what differs between two looks and owes no look of a controller at a key leaves its plan for
//! that key empty; and what an empty plan says of what is there.
#![tactic(auto)]

pub mod locality_laws;
pub mod present_laws;
pub mod settled_laws;

//! Laws of the work that threads share, which follow from the histories that its passes see.
#![tactic(auto)]

pub mod key_laws;

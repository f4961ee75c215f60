//! What an object's spec is given where the request leaves it out.
#![tactic(auto)]

mod spec_defaults;

pub use spec_defaults::defaults;

//! Laws of control planes at rest: what is published skips nothing, live reads lead to what is there, last plans were empty, and nothing is
//! left to do.
#![tactic(auto)]

pub mod whole_laws;

//! Laws of plans at rest: empty plans of last turns stay empty, and what it says that nothing is left to do.
#![tactic(auto)]

pub mod settled_laws;

//! `kcp simulate` as a service of lines over a `World`, and the lines that tell what came of a step.
//!
//! A line of no form is answered as a request that cannot be read, and nothing tells what was wrong with it. `docs/SIMULATE.md` lists the
//! lines, and `conformance/simulate/cases` has worked ones.
#![tactic(auto)]

mod runs;
pub mod service_laws;
mod simulations;
mod telling;

pub use runs::simulate;
pub use simulations::Simulation;
pub use telling::{ready, told};

//! The turns of simulated workers, the commands that they issued, and the lines that tell of them.
//!
//! A line is to be made before what it tells of is done, since it may want memory that is not there: so a step that fails changes nothing,
//! as `sim_manager` has it. Workers are numbered from 0.
#![tactic(auto)]

pub mod answering;
pub mod copies;
pub mod issued;
pub mod lines;
mod slots;
mod steps_next;
mod words;

pub use issued::Issued;
pub use slots::Slots;

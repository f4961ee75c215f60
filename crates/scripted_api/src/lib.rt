//! A server that plays a script, in memory, for tests: it answers what a test says, in its order, and notes what it is asked.
#![tactic(auto)]

mod lines;
mod scripts;

pub use lines::line_of;
pub use scripts::{First, STREAM, Script, ScriptedAnswer, ScriptedWatch};

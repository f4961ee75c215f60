//! What the words after the program's name ask: a command, with its options.
#![tactic(auto)]

mod all_options;
mod command;
mod control_options;
pub mod defaults;
pub mod examples;
mod mistake;
mod serve_options;
mod setting;
mod usage;
pub mod words;

pub use all_options::AllOptions;
pub use command::Subcommand;
pub use control_options::ControlOptions;
pub use mistake::Mistake;
pub use serve_options::ServeOptions;
pub use setting::{MOST_THREADS, MOST_WORKERS, Setting};
pub use usage::Usage;

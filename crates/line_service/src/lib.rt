//! A service that answers lines, the loop that runs it over a reader and a writer, and reply lines byte for byte.
//!
//! A line is held whole, however long it is, and a run goes on as long as its reader does: who reads what strangers send has to limit both
//! in the reader. `line_session::Session` and `sim_service::Simulation` are services; `http_tests` runs one over devices that fail.
#![tactic(auto)]

pub mod answer;
mod constants;
mod fault;
pub mod lines;
pub mod run_loop;
mod service;

pub use constants::no_memory_line;
pub use fault::RunFault;
pub use run_loop::run;
pub use service::LineService;

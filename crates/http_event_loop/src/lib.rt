//! Many connections on one thread: polling, accepting, deadlines, watches that are woken; and a port listened on by several such threads.
//!
//! Contracts say what loops ask their server: one thing for each connection that they took at most, and looks of watches; and that each
//! loop of a row ran. What a socket does, and what the system reports, none can say. Whoever writes tells `Loops::wrote`, or watches hear
//! of it late. `kcp_commands::serving_threads` opens a row of loops and runs it.
#![tactic(auto)]

mod accepting;
mod asker;
mod asking;
mod at_work;
mod beginnings;
mod begun;
mod counting;
pub mod deadlines;
mod event_loop;
mod fault;
mod given;
mod held;
mod listening;
mod loops;
mod open_connections;
mod opened;
mod place;
pub mod rota;
mod rounds;
mod rows;
mod runner;
mod ticks;
mod turns;
mod wakes;

pub use accepting::Listening;
pub use asker::Asker;
pub use counting::count_taken;
pub use event_loop::EventLoop;
pub use fault::{ListenFault, not_listening};
pub use listening::{announce, bind, listen};
pub use loops::Loops;
pub use place::LoopPlace;
pub use rows::run_row;
pub use runner::Runner;
pub use turns::{Turns, TurnsTaken};

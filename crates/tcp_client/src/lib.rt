//! Connections over TCP, the clock of the machine, a stream and a pause that last no longer than all goes on, for programs.
//!
//! Nothing is encrypted. That a connection comes about, and that a limit of time is kept, is up to the system, and no clause says so. A
//! `Patient` needs a stream whose reads end after `PIECE_MILLISECONDS`. `watch_example` follows a server with a `TcpConnect` and a
//! `WallClock`.
#![tactic(auto)]

mod connecting;
pub mod patient;
mod stoppable_clock;
mod stoppable_connecting;
mod time_limits;
mod wall_clock;

pub use connecting::TcpConnect;
pub use patient::Patient;
pub use stoppable_clock::StoppableClock;
pub use stoppable_connecting::StoppableConnect;
pub use time_limits::TimeLimits;
pub use wall_clock::WallClock;

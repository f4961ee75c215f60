//! Connections of the loopback address: the loops that answer them, each with a pass of a desk that all share, and what opens them to a server.
#![tactic(auto)]

mod answering;
mod connecting;
pub(crate) mod denials;
pub(crate) mod errand;
pub mod escaped;
pub(crate) mod failures;
pub mod heard;
pub(crate) mod losses;
mod other_server;
mod own_server;
mod reach;
pub(crate) mod refusals;
mod ringing;
pub(crate) mod spell;
pub(crate) mod strife;
pub mod telling;
mod trouble;

pub use answering::{SeatedLoop, Shared};
pub use connecting::LoopbackConnector;
pub use other_server::OtherServer;
pub use own_server::{OwnServer, answer_of};
pub use reach::Reach;
pub use ringing::Ringer;
pub use trouble::Trouble;

//! Request lines of the program: answered by a session for `kcp replay`, sent to a server over HTTP for `kcp all`.
//!
//! `replay` has one contract from the lines that are read to those that are written. `relay` says only why it ended: what a server answers over a
//! connection nothing says here, and a watch holds up the lines after it until the server ends it. `conformance/cases` has lines with their
//! replies.
#![tactic(auto)]

pub mod lines;
mod relay_fault;
mod relaying;
pub mod replay_laws;
mod replays;

pub use relay_fault::RelayFault;
pub use relaying::relay;
pub use replays::{replay, replay_with};

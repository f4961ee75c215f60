//! A server that is asked, and what is told of how that goes: for who runs a controller, and sees nothing of its connections.
#![tactic(auto)]

pub(crate) mod named;
pub(crate) mod news;
mod notes;
pub(crate) mod teller;
mod told;
mod trouble;

pub use notes::{Notes, Silent, StandardError};
pub use told::Told;
pub use trouble::Trouble;

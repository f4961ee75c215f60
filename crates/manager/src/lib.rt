//! The controllers in threads: what follows a server, one thread for each kind; workers, each of which takes one key after another and
//! commands what its controller plans; and what lets time pass.
#![tactic(auto)]

pub mod handler;
pub(crate) mod handling;
pub mod members;
pub mod origins;
pub mod reflecting;
pub(crate) mod relisting;
mod running;
pub mod ticking;

pub use manager_worker::{Gate, Open, Signals};
pub use running::{Apis, FOLLOWERS, run};

//! Watches, served over anything that can be watched and any writer.
#![tactic(auto)]

mod begun;
mod fault;
mod first_frames;
mod frames;
mod looked;
mod one_look;
mod opening;
mod serving;
mod source;
mod standing;

pub use begun::Begun;
pub use fault::{Cut, WatchFault};
pub use first_frames::FirstFrames;
pub use looked::Looked;
pub use one_look::take_look;
pub use opening::{WatchStart, open};
pub use serving::{MOST_IDLE, go_on, serve_watch};
pub use source::{LookPace, WatchSource};
pub use standing::WatchStanding;

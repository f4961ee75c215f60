//! Simulated runs of a controller of one's own: a server, what follows each kind of it, a board of keys and workers, step by step, with no thread, no
//! clock and no socket. Each request of a reconcile is a step of its own, so that anything can happen between two of them.
#![tactic(auto)]

pub mod asking;
pub mod clients;
pub mod events;
pub mod fates;
pub mod handling;
pub mod past;
pub mod places;
pub mod playback;
pub mod steps;
pub mod turns;
pub mod working;
pub mod worlds;

pub use events::WorldEvent;
pub use fates::Fate;
pub use past::PastRequest;
pub use playback::{Playback, Reached};
pub use steps::WorldStep;
pub use turns::{ControllerTurn, Next};
pub use working::{Issued, Taking};
pub use worlds::ControllerWorld;

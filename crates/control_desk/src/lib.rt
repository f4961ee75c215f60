//! The work of controllers that threads share: one board, of which each worker has a pass. Each call of a pass is one step of the
//! board at one point of one history of all calls, and no key is in the hands of two passes. With a key a worker takes up to which
//! revision of each kind what is published was handled before.
#![tactic(auto)]

mod calls;
mod desks;
pub mod entries;
mod expecting;
pub mod hand_laws;
mod handling;
pub mod states;
mod steps;
pub mod taken_key;
pub mod work_law;

pub use desks::{ControlDesk, WorkPass};
pub use states::WorkState;
pub use taken_key::TakenKey;
pub use work_board::{AgedOut, Board, Observation, Owner};
pub use work_law::WorkLaw;

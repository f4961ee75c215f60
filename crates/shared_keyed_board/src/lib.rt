//! A board of keys of any type that threads share. Each call of a pass is one step of the board at one point of one history of all
//! calls, and no key is in the hands of two passes. Who takes a key where none waits sleeps until one does.
#![tactic(auto)]

mod attempt;
mod board_law;
mod boards;
mod doing;
pub mod entries;
mod gathering;
mod giving;
mod handling;
mod hands;
pub mod laws;
mod steps;
mod turns;
mod waiting;

pub use board_law::BoardLaw;
pub use boards::{BoardPass, SharedKeyedBoard};
pub use hands::KeyInHand;
pub use keyed_board::{KeyedBoard, Outcome};

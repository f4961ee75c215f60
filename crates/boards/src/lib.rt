//! A board of keys of any type that workers share, with a side table of any kind that is stepped with it: the work queue, the keys with
//! a delay, the failures in a row, the side table, and the time. Each call is one step.
#![tactic(auto)]

mod board;
pub mod laws;
mod outcome;
mod side_table;

pub use board::Board;
pub use outcome::Outcome;
pub use side_table::SideTable;

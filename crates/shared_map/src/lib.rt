//! Maps in key order whose copies share their entries: a copy costs a count for each few entries, and a change copies those few.
#![tactic(auto)]

pub(crate) mod alone;
pub(crate) mod chunks;
pub(crate) mod cutting;
pub(crate) mod entries;
mod left;
mod map;
pub(crate) mod ranges;

pub use left::EntriesLeft;
pub use map::SharedMap;

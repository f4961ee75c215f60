//! `PlainInformer`, for one thread; which changes a publish shows.
//!
//! Deltas wait for `publish` without limit. `watch_example` publishes with a `PlainInformer`.
#![tactic(auto)]

mod plain;
mod publisher;
mod publishing;

pub use indexer::{Indexed, Shift};
pub use plain::PlainInformer;
pub use publisher::{Publishing, is_list};
pub use publishing::apply_more;

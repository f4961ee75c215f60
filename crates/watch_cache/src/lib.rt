//! The last changes of one kind: from them watches are served, and by undoing them lists of earlier revisions.
#![tactic(auto)]

mod cache;
mod caches;
pub mod changes;
mod copies;
mod searching;

pub use cache::Cache;
pub use caches::Caches;
pub use changes::Change;

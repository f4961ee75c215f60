//! Deletion: what a delete asks for and does, and which update removes an object that is being deleted.
#![tactic(auto)]

mod fates;
mod finalizers;
mod options;
mod updates;

pub use fates::{DeleteFault, Fate, decide_delete};
pub use options::DeleteOptions;
pub use updates::is_finalized;

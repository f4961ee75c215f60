//! What the writing verbs share: bodies, names and versions compared, the first status, generations, and an object in the place of another.
//!
//! Nothing is written here, and no part knows the others: that the first refusal is the right one is for the verb to see to, by the order
//! in which it calls them. `verb_update` is a worked use.
#![tactic(auto)]

pub mod bodies;
pub mod existing;
pub mod first_status;
pub mod generations;
pub mod limits;
pub mod names_given;
mod placing;
pub mod stored_texts;

pub use placing::{is_full, put_in_place, replaced, unchanged};

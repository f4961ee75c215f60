//! What an object has to be before it is stored: checks, whose first fault refuses the request.
#![tactic(auto)]

mod checks;
mod counts;
mod finalizers;
mod labels;
mod object_names;
mod owners;
mod selectors;
mod strategies;
mod templates;
mod uids;

pub use checks::{check_create, check_update};
pub use counts::is_status_valid;

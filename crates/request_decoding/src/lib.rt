//! What a method, a target and a body ask: a request of an object, the list of a view, or a watch of it, or why it is refused.
#![tactic(auto)]

mod asking;
mod meaning;

pub use asking::{ask, read_request};
pub use meaning::Asked;

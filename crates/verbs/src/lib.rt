//! The verbs of the API: what each request is answered over a store, and what it writes.
#![tactic(auto)]

pub mod accepting;
mod read;

pub use crate::accepting::accept;
pub use request_parts::Request;

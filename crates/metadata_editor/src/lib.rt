//! Objects whose metadata is being written.
#![tactic(auto)]

mod draft;

pub use draft::Draft;

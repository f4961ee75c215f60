//! What the words of a Kubernetes-style API mean, as mathematics, and the few types that all crates share.
//! No other crate is known here: each of them proves that it does what stands here.
#![tactic(auto)]

pub mod amounts;
pub mod frames;
pub mod kinds;
pub mod methods;
pub mod policies;
pub mod refusals;
pub mod schemas;
pub mod selectors;
pub mod versions;

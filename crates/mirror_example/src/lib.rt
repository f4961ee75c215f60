//! A controller of one's own, without the program that runs it: a ConfigMap for each Pod, which the Pod owns and which says its phase.
#![tactic(auto)]

mod mirror;

pub use mirror::Mirror;

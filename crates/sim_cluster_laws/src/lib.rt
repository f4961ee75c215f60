//! Informers of the simulated cluster show lists of its server, whatever steps are taken; laws of streaming lists (`sendInitialEvents`).
//!
//! They are laws of the definitions, which `sim_cluster` meets, so that its contracts have them. None says that anything is published in
//! the end: that is up to the steps. Of `list_and_watch` there are laws in its own crate.
#![tactic(auto)]

pub mod cluster_laws;
pub mod follower_laws;
pub mod lead_laws;
pub mod pass_laws;
pub mod served_stream_laws;
pub mod streaming_laws;

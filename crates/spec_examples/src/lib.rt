//! What the definitions give in single cases, computed by the checker, also those of the simulated cluster and its control plane: a slip in a
//! definition shows here. No crate stands on this one.
#![tactic(auto)]

pub mod check_examples;
pub mod collection_examples;
pub mod collector_examples;
pub mod cut_examples;
pub mod deletion_examples;
pub mod deployment_examples;
pub mod look_examples;
pub mod owed_examples;
pub mod page_examples;
pub mod reflector_examples;
pub mod replica_set_examples;
pub mod request_examples;
pub mod selector_examples;
pub mod server_examples;
pub mod serving_examples;
pub mod shift_examples;
pub mod sim_action_examples;
pub mod sim_line_examples;
pub mod sim_move_examples;
pub mod sim_pod_examples;
pub mod sim_run_examples;
pub mod sim_stream_examples;
pub mod sim_turn_examples;
pub mod stream_examples;
pub mod verb_examples;
pub mod watch_examples;
pub mod window_examples;
pub mod work_examples;

//! What follows from the definitions, whatever code meets them: each function is a law, and its contract is proved. Laws of the API and
//! of lines, of what a client reads of a reply's text, of servers, of what controllers are built of, and of their plans.
#![tactic(auto)]

pub mod answer_laws;
pub mod asked_laws;
pub mod awaited_laws;
pub mod check_laws;
pub mod collector_laws;
pub mod deployment_laws;
pub mod due_laws;
pub mod expectation_laws;
pub mod finalizer_laws;
pub mod floor_laws;
pub mod grammar_laws;
pub mod history_laws;
pub mod identity_laws;
pub mod lifecycle_laws;
pub mod look_laws;
pub mod page_laws;
pub mod parsed_laws;
pub mod reached_laws;
pub mod replacement_laws;
pub mod replica_set_laws;
pub mod reply_laws;
pub mod selector_laws;
pub mod sent_laws;
pub mod server_laws;
pub mod snapshot_laws;
pub mod stream_laws;
pub mod uid_laws;
pub mod version_laws;
pub mod watch_laws;
pub mod window_laws;
pub mod work_queue_laws;

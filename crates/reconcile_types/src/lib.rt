//! What a reconcile takes and gives: `Read`, `Hand`, `Plan`, `Command`; counts, and the commands that update a status.
//!
//! Looks of different kinds may be of different revisions, and old: what has to be present is read live, and a command names the version
//! that it replaces, so that the server refuses what was planned of an older one. `collector` plans by looks and live reads.
#![tactic(auto)]

mod commands;
mod counts;
mod entries;
pub mod hands;
mod seen;
mod updates;

pub use commands::{Command, Plan, Version};
pub use counts::{count_in_spec, count_in_status, not_below_0};
pub use entries::Entry;
pub use hands::{Hand, Read};
pub use seen::Seen;
pub use updates::{add_report, add_update, status, with_count};

//! The small texts of objects: names and labels, moments, also as a clock shows them, resource versions and how far they go, uids; and a
//! stopwatch.
//!
//! Nothing says that a clock is right, or goes on: `moment` gives none where it fails, for which the caller needs an answer of his own, and
//! a `Stopwatch` counts no time where it falls back. `tcp_client::WallClock` counts by one.
#![tactic(auto)]

mod clock_moments;
mod labels;
pub mod laws;
mod limits;
pub mod moments;
mod object_labels;
pub mod revisions;
pub mod stopwatch;
mod subdomains;
pub mod uids;

pub use clock_moments::{moment, moment_of};
pub use labels::{is_label, is_namespace};
pub use limits::GREATEST_REVISION;
pub use object_labels::{is_label_key, is_label_value};
pub use subdomains::is_subdomain;

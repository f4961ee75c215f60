//! `Session`: request lines answered over a server that begins empty; and one with the journal of all that happened to it.
//!
//! The moment is the one that a line has set last, and no clock's. What `prepare` gives is of the session as it is: it is to be committed,
//! or dropped, before anything else is. `kcp_lines::replay` runs a session, and `sim_cluster` one that is recorded.
#![tactic(auto)]

mod effects;
mod entries;
mod openings;
mod recorded;
pub mod session_laws;
mod sessions;

pub use effects::{Effect, Prepared};
pub use entries::JournalEntry;
pub use recorded::RecordedSession;
pub use sessions::Session;

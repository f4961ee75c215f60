//! What a controller watches: objects of a kind, in a namespace or in all, and with some labels or with any; several watches may name a kind.
#![tactic(auto)]

pub mod joining;
mod start_fault;
mod views;
pub mod watch_laws;
mod watches;

pub use joining::joint_watches;
pub use start_fault::StartFault;
pub use views::is_in_view;
pub use watches::{Watch, check_watches};

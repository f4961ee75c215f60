//! Controllers of one's own, as their authors write them, after controller-runtime: what a controller says of itself, which keys changes owe by it,
//! and what most ask of a server. No thread and no socket is below it.
#![tactic(auto)]

mod asking;
mod declaring;
pub mod finalizer_laws;
mod finalizers;
pub(crate) mod guarding;
pub mod owing;
mod printing;
mod reconcilers;
mod trace_laws;
mod unchanged;

pub use asking::{ask, deletion, namesake};
pub use declaring::create_or_patch;
pub use finalizers::{ensure_finalizer, remove_finalizer};
pub use keyed_board::{Failure, Outcome};
pub use live_reads::{FoundObject, found_in};
pub use object_keys::PerKind;
pub use owing::owed;
pub use printing::Printable;
pub use reconcilers::Reconciler;
pub use trace_laws::traces_join;
pub use unchanged::owed_again;

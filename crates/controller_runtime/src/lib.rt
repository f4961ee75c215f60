//! Controllers of one's own, after controller-runtime: what a controller says of itself, and what follows, queues, retries and stops for it.
//!
//! A key is in one worker's hands at a time, and is queued once however often it is owed. One that a change owes waits, or was taken after it, until
//! the run ends. No worker takes a key before each followed kind was listed, and each key is given back with how its reconcile ended, or once the run
//! is over. `run_at_board` and clauses within the crate say so; none says that a thread starts, or how soon anything comes about.
//!
//! The shortest right use, as `controller_example` has it, which the gate runs; `Mirror`, of `mirror_example`, is the controller:
//!
//! ```text
//! check_watches(alloc, &watches)?;
//! thread::spawn(&rt, move || stop_at_end_of_input(&rt, &same))?;
//! run_at(&rt, alloc, server, &Mirror, &watches, WORKERS, &notes, &stop)?;
//! ```
//!
//! What not to do: to wait in `reconcile`, which keeps a worker and a stop waits for (return `Outcome::LookAgain`); to write what is shown without
//! the version or the uid that was seen (`ask` asks what `reconciler` makes so); to take what is shown for what is there now; to join the thread that asks
//! for the stop.
#![tactic(auto)]

mod endings;
mod followed;
pub(crate) mod following;
pub(crate) mod handling;
mod histories;
pub(crate) mod joining;
pub(crate) mod means;
pub(crate) mod members;
pub mod own_board;
pub(crate) mod pausing;
pub mod programs;
mod running;
pub(crate) mod signs;
pub(crate) mod stopping;
pub(crate) mod telling;
pub(crate) mod ticking;
pub(crate) mod turning;
pub(crate) mod under_way;
pub(crate) mod working;

pub use controller_layers::{Scoped, Telling};
pub use controller_watches::{StartFault, Watch, check_watches, is_in_view, joint_watches};
pub use endings::{stop_after, stop_at_end_of_input};
pub use followed::Followed;
pub use histories::look_back;
pub use own_board::run_workers;
pub use programs::run_at;
pub use reconciler::{Failure, Outcome, PerKind, Printable, Reconciler, ask, deletion, namesake};
pub use running::{Ended, OTHER_THREADS, run_at_board};

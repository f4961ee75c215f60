//! What comes of what workers do.

use object_keys::{Key, WorkKey};
use sim_worker_slots::Issued;
use spec_api::kinds::Kind;
use std::alloc::Global;
use std::sync::Arc;

/// What came of a worker's action, of a change that was handled, or of time that passes.
#[derive(Drop)]
pub enum WorkOutcome {
    /// The step was not open, and changed nothing.
    NoStep,
    /// A worker took the key that waited longest, if one did.
    Took {
        worker: u64,
        key: Option<WorkKey>,
    },
    /// A worker looked at what is published of a kind, at this revision.
    Looked {
        worker: u64,
        kind: Kind,
        revision: u64,
    },
    /// A worker was told whether all pods that its ReplicaSet expected have been seen.
    Satisfied {
        worker: u64,
        is_satisfied: bool,
    },
    /// A worker read live what is there under a key: an object of this `resourceVersion`, or nothing.
    Read {
        worker: u64,
        key: Key,
        version: Option<String>,
    },
    /// A worker's ReplicaSet expects so many pods to be created, and so many to be deleted.
    Expected {
        worker: u64,
        creations: u64,
        deletions: u64,
    },
    /// A worker issued a command, as it is recorded with its turn and its answer.
    Issued {
        worker: u64,
        issued: Arc<Issued, Global>,
    },
    /// A worker's turn ended, and all of it was accepted, or its key waits for its delay.
    Finished {
        worker: u64,
        is_accepted: bool,
    },
    /// A change of a kind was handled, which owed so many work keys.
    Handled {
        kind: Kind,
        keys: u64,
    },
    /// Time passed, and this is how much there was, in milliseconds.
    Time {
        milliseconds: u64,
    },
}

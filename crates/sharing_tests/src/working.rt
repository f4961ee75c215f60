//! Keys that threads add to a board, take and give back.
ghost use Rattle.std.specs.Prelude.{◌≡◌, None};
ghost use Rattle.control_desk.specs.Desks.{IsPassAt, key_in_hand};

use control_desk::{ControlDesk, WorkPass};
use object_keys::{Key, WorkKey};
use spec_api::kinds::Kind;
use spec_client_go::controller::Controller;
use std::alloc::{AllocError, Global};
use std::sync::Wait;
use std::sync::atomic::{AtomicU64, Ordering};

/// How many keys each thread adds.
const EACH: u64 = 125;

/// Returns a key of a worker.
fn key(alloc: Global, worker: u64, number: u64) -> Result<WorkKey, AllocError> {
    Ok(WorkKey {
        controller: Controller::ReplicaSet,
        key: Key {
            kind: Kind::ReplicaSet,
            namespace: String::from_str(alloc, "default")?,
            name: format!(in alloc; "w{}-{}", worker, number)?,
        },
    })
}

/// Adds a key of a worker, as one that a ReplicaSet owes.
fn add<R: Wait>(
    rt: &R,
    alloc: Global,
    desk: &ControlDesk,
    pass: &mut WorkPass,
    worker: u64,
    number: u64,
) -> Result<(), AllocError>
    requires { IsPassAt desk.now pass.old }
    ensures pass { IsPassAt desk.now pass.new }
    ensures key { key_in_hand pass.new ≡ key_in_hand pass.old }
{
    let key = key(alloc, worker, number)?;
    desk.observe(rt, pass, Kind::ReplicaSet, number, &[], &[key])
}

/// Takes a key, whoever added it, gives it back, and counts it. Returns whether one waited.
fn handle<R: Wait>(rt: &R, desk: &ControlDesk, pass: &mut WorkPass, handled: &AtomicU64) -> bool
    requires pass { IsPassAt desk.now pass.old }
    requires free { key_in_hand pass.old ≡ None }
    ensures pass { IsPassAt desk.now pass.new }
    ensures free { key_in_hand pass.new ≡ None }
{
    let Ok(Some(taken)) = desk.take_key(rt, pass) else {
        return false;
    };
    desk.done(rt, pass, &taken.key);
    handled.fetch_add(1, Ordering::SeqCst);
    true
}

/// Adds keys, and handles one after each; then goes on until none waits. It gives the pass back.
pub(crate) fn work<R: Wait>(
    rt: &R,
    alloc: Global,
    desk: &ControlDesk,
    mut pass: WorkPass,
    worker: u64,
    handled: &AtomicU64,
) -> WorkPass
    requires pass { IsPassAt desk.now pass }
    requires free { key_in_hand pass ≡ None }
    ensures { IsPassAt desk.now result }
{
    for number in 0..EACH {
        if add(rt, alloc, desk, &mut pass, worker, number).is_ok() {
            handle(rt, desk, &mut pass, handled);
        }
    }
    for _ in 0..u64::MAX {
        if !handle(rt, desk, &mut pass, handled) {
            break;
        }
    }
    pass
}

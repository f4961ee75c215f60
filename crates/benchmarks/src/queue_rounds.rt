//! The loop by which a line of keys is measured.
use crate::waiting_line::WaitingLine;
use object_keys::{Key, WorkKey};
use spec_api::kinds::Kind;
use spec_client_go::controller::Controller;
use std::alloc::{AllocError, Global};

/// How many keys there are.
const KEYS: usize = 100_000;

/// Keys are made this far apart in their order, so that neighbours in the line are far from each other in the sets.
/// It shares no factor with the number of keys.
const STRIDE: usize = 70_001;

/// Adds some thousand keys: all the keys in turn, and again from the first. Each time that all stand in the line, and at
/// the end, they are handed out and taken back, one after another. Gives how many keys were handed out.
pub fn run<L: WaitingLine>(alloc: Global, line: &mut L, thousands: u32) -> Result<u64, AllocError> {
    let keys = keys(alloc)?;
    let mut handed_out = 0u64;
    let rounds = thousands as usize * 1000;
    for begun in (0..rounds).step_by(KEYS) {
        let count = KEYS.min(rounds - begun);
        add_all(line, &keys, count)?;
        handed_out = handed_out.wrapping_add(take_all(line, count)?);
    }
    Ok(handed_out)
}

/// Adds the first keys.
fn add_all<L: WaitingLine>(line: &mut L, keys: &[WorkKey], count: usize) -> Result<(), AllocError> {
    for key in keys.iter().take(count) {
        line.add(key.try_copy()?)?;
    }
    Ok(())
}

/// Takes keys from the line, each when the one before is done, and gives how many came.
fn take_all<L: WaitingLine>(line: &mut L, count: usize) -> Result<u64, AllocError> {
    let mut handed_out = 0u64;
    for _ in 0..count {
        if let Some(key) = line.get()? {
            line.done(&key);
            handed_out = handed_out.wrapping_add(1);
        }
    }
    Ok(handed_out)
}

/// Returns all the keys.
fn keys(alloc: Global) -> Result<Vec<WorkKey>, AllocError> {
    let mut keys = Vec::new(alloc);
    for number in 0..KEYS {
        keys.push(WorkKey {
            controller: Controller::ReplicaSet,
            key: Key {
                kind: Kind::ReplicaSet,
                namespace: String::from_str(alloc, "default")?,
                name: format!(in alloc; "web-{:06}", number * STRIDE % KEYS)?,
            },
        })?;
    }
    Ok(keys)
}

//! A key that is added while a worker has it.
use crate::assertions::assert_same;
use object_keys::WorkKey;
use spec_api::kinds::Kind;
use spec_client_go::controller::Controller;
use std::alloc::{AllocError, Global};
use test_fixtures::key;
use workqueue::Queue;

/// The key of the work on a ReplicaSet in the namespace `default`.
pub(crate) fn work_key(alloc: Global, name: &str) -> Result<WorkKey, AllocError> {
    Ok(WorkKey {
        controller: Controller::ReplicaSet,
        key: key(alloc, Kind::ReplicaSet, name)?,
    })
}

/// Whether this key is handed out.
fn is_handed_out(queue: &mut Queue, wanted: &WorkKey) -> Result<bool, AllocError> {
    Ok(match queue.get()? {
        Some(key) => key == *wanted,
        None => false,
    })
}

/// Adds the key `web` and takes what is handed out. Returns whether that is this key.
fn add_and_take(alloc: Global, queue: &mut Queue, key: &WorkKey) -> Result<bool, AllocError> {
    queue.add(work_key(alloc, "web")?)?;
    is_handed_out(queue, key)
}

/// Adds the key again, and says that it is done. Returns how many keys wait before and after that.
fn add_and_end(alloc: Global, queue: &mut Queue, key: &WorkKey) -> Result<[usize; 2], AllocError> {
    queue.add(work_key(alloc, "web")?)?;
    let meanwhile = queue.len();
    queue.done(key);
    Ok([meanwhile, queue.len()])
}

/// What is seen of a key that is added twice: whether it was handed out, how many keys wait before and after it is done, and whether it is
/// handed out once more.
type Seen = (bool, [usize; 2], bool);

/// Adds the key `web` twice, where it is taken in between.
fn add_twice(alloc: Global, queue: &mut Queue, key: &WorkKey) -> Result<Seen, AllocError> {
    let first = add_and_take(alloc, queue, key)?;
    let waiting = add_and_end(alloc, queue, key)?;
    Ok((first, waiting, is_handed_out(queue, key)?))
}

/// Returns what is seen as the key `web` is added twice.
fn added_twice(alloc: Global) -> Result<Seen, AllocError> {
    let key = work_key(alloc, "web")?;
    let mut queue = Queue::new(alloc);
    add_twice(alloc, &mut queue, &key)
}

#[test]
fn a_key_waits_for_its_done(rt: HostRuntime) {
    assert_same(&rt, &added_twice(rt.alloc()), &Ok((true, [0, 1], true)));
}

//! Creations and deletions that are waited for.
use crate::assertions::assert_same;
use crate::keyed_queue_tests::texts;
use expectations::Table;
use object_keys::Key;
use spec_api::kinds::Kind;
use std::alloc::{AllocError, Global};
use test_fixtures::key;

/// Returns whether two creations, one of which is seen, are waited for no longer after five minutes, and a moment later, and whether that is so
/// at once where the other one failed.
fn creations(alloc: Global, key: &Key) -> Result<[bool; 3], AllocError> {
    let mut table = Table::new(alloc);
    table.expect_creations(key, "uid-1", 2, 0)?;
    table.created(key, "uid-1");
    let after = table.satisfied(key, "uid-1", 300_000);
    let later = table.satisfied(key, "uid-1", 300_001);
    table.create_failed(key, "uid-1");
    Ok([after, later, table.satisfied(key, "uid-1", 1)])
}

/// Returns whether the deletion of a pod is waited for no longer as another one is seen deleted, and as it is seen deleted itself.
fn deletions(alloc: Global, key: &Key) -> Result<[bool; 2], AllocError> {
    let pods = texts(alloc, &["pod-1"])?;
    let mut table = Table::new(alloc);
    table.expect_deletions(key, "uid-1", pods, 5)?;
    table.deleted(key, "uid-1", "pod-2");
    let other = table.satisfied(key, "uid-1", 6);
    table.deleted(key, "uid-1", "pod-1");
    Ok([other, table.satisfied(key, "uid-1", 6)])
}

/// Returns what `creations` and `deletions` do for the key `web`.
fn waits(alloc: Global) -> Result<([bool; 3], [bool; 2]), AllocError> {
    let key = key(alloc, Kind::ReplicaSet, "web")?;
    Ok((creations(alloc, &key)?, deletions(alloc, &key)?))
}

/// Has a ReplicaSet wait for a pod since moment 0. Returns its key.
fn expect(alloc: Global, table: &mut Table, name: &str, uid: &str) -> Result<Key, AllocError> {
    let key = key(alloc, Kind::ReplicaSet, name)?;
    table.expect_creations(&key, uid, 1, 0)?;
    Ok(key)
}

/// Has `web` wait for a pod since moment 0, and `api` too, which then sees its own.
fn expect_both(alloc: Global, table: &mut Table) -> Result<(), AllocError> {
    expect(alloc, table, "web", "uid-1")?;
    let api = expect(alloc, table, "api", "uid-2")?;
    table.created(&api, "uid-2");
    Ok(())
}

/// Returns how many ReplicaSets age out from moment 0 to the first of these, and from each of them to the next.
fn ages_of(alloc: Global, table: &Table, moments: &[u64]) -> Result<Vec<usize>, AllocError> {
    let mut ages = Vec::new(alloc);
    let mut before = 0;
    for now in moments {
        ages.push(table.aged_out(before, *now)?.len())?;
        before = *now;
    }
    Ok(ages)
}

/// Returns how many of the two age out so.
fn ages(alloc: Global, moments: &[u64]) -> Result<Vec<usize>, AllocError> {
    let mut table = Table::new(alloc);
    expect_both(alloc, &mut table)?;
    ages_of(alloc, &table, moments)
}

// None until five minutes have passed, one in the millisecond after, and none then.
#[test]
fn who_waits_in_vain_ages_out_once(rt: HostRuntime) {
    let ages = ages(rt.alloc(), &[300_000, 300_001, 600_000]);
    assert_same(&rt, &ages.as_deref(), &Ok([0, 1, 0].as_slice()));
}

#[test]
fn creations_and_deletions_are_waited_for(rt: HostRuntime) {
    assert_same(
        &rt,
        &waits(rt.alloc()),
        &Ok(([false, true, true], [false, true])),
    );
}

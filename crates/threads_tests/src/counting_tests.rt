//! Pods that are declared.
use crate::counting::declare_and_count;
use crate::environments::Environment;
use spec_api::kinds::Kind;
use std::alloc::{AllocError, Global};
use std::sync::Wait;
use std::thread::Threads;
use std::time::Clock;

/// How many workers there are.
const WORKERS: usize = 2;

/// How many passes there are: for four followers, the workers and a client.
const PASSES: usize = 7;

/// Declares a ReplicaSet of two pods, and returns whether two pods came.
fn two_came<R: Threads + Wait + Clock + Sync>(rt: &R, alloc: Global) -> Result<bool, AllocError> {
    let (environment, mut passes) = Environment::open(alloc, PASSES)?;
    let scene = environment.scene(rt, alloc);
    declare_and_count(
        &scene,
        &mut passes,
        Kind::ReplicaSet,
        2,
        WORKERS,
        Kind::Pod,
        2,
    )
}

#[test]
fn two_pods_come_though_the_clock_stands_still(rt: HostRuntime) -> Result<(), AllocError> {
    let have_come = two_came(&rt, rt.alloc())?;
    assert!(rt; have_come, "no two pods came");
    Ok(())
}

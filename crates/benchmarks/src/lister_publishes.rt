//! Publishes of one delta.
use crate::lister_pods::{pods, publish_all, publish_one};
use informer::Informer;
use reflector::SharedObject;
use std::alloc::{AllocError, Global};
use std::sync::Wait;

/// Publishes all Pods, and then a delta so many times. Returns how many shifts there were.
fn publish<R: Wait>(
    rt: &R,
    informer: &mut Informer,
    pods: &[SharedObject],
    times: u32,
) -> Result<usize, AllocError> {
    let mut count = publish_all(rt, informer, pods)?;
    for turn in 0..times {
        count = count.wrapping_add(publish_one(rt, informer, pods, turn)?);
    }
    Ok(count)
}

/// Publishes all Pods, and then a delta so many times. Returns how many shifts there were.
pub fn run<R: Wait>(rt: &R, alloc: Global, times: u32) -> Result<usize, AllocError> {
    let pods = pods(alloc)?;
    let mut informer = Informer::open(alloc, 1)?;
    let count = publish(rt, &mut informer, pods.as_slice(), times);
    informer.close(rt);
    count
}

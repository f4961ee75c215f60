//! What is measured of an indexed copy and of an informer, so many times.
use crate::informer_bench::What;
use crate::informer_pods::{PODS, SETS, pod, set, uid};
use event_handlers::keys_of;
use indexer::Indexed;
use object_keys::PerKind;
use plain_informer::PlainInformer;
use reflector::{Delta, SharedObject};
use spec_api::kinds::Kind;
use std::alloc::{AllocError, Global};

/// Returns the Pods.
fn pods(alloc: Global) -> Result<Vec<SharedObject>, AllocError> {
    let mut pods = Vec::new(alloc);
    for number in 0..PODS {
        pods.push(pod(alloc, number)?)?;
    }
    Ok(pods)
}

/// Puts an object into a copy.
fn put_one(indexed: &mut Indexed, object: &SharedObject) -> Result<(), AllocError> {
    indexed.apply(&Delta::Put(object.try_copy()?))
}

/// Puts objects into a copy, one after another.
fn put_all(indexed: &mut Indexed, objects: &[SharedObject]) -> Result<(), AllocError> {
    for object in objects {
        put_one(indexed, object)?;
    }
    Ok(())
}

/// Puts the ReplicaSets into a copy.
fn put_sets(alloc: Global, indexed: &mut Indexed) -> Result<(), AllocError> {
    for number in 0..SETS {
        indexed.apply(&Delta::Put(set(alloc, number)?))?;
    }
    Ok(())
}

/// Returns a copy with the ReplicaSets.
fn sets(alloc: Global) -> Result<Indexed, AllocError> {
    let mut indexed = Indexed::new(alloc);
    put_sets(alloc, &mut indexed)?;
    Ok(indexed)
}

/// Returns what is looked at.
fn looks(alloc: Global, pods: &Indexed) -> Result<PerKind<Indexed>, AllocError> {
    let pods = pods.try_copy()?;
    let replica_sets = sets(alloc)?;
    Ok(PerKind {
        config_maps: Indexed::new(alloc),
        pods,
        replica_sets,
        deployments: Indexed::new(alloc),
    })
}

/// Returns the Pod of a turn: each in turn, and again from the first.
fn of_turn(pods: &[SharedObject], turn: u32) -> Option<&SharedObject> {
    pods.get(turn as usize % PODS as usize)
}

fn put(indexed: &mut Indexed, pods: &[SharedObject], times: u32) -> Result<usize, AllocError> {
    let mut count = 0usize;
    for turn in 0..times {
        if let Some(pod) = of_turn(pods, turn) {
            put_one(indexed, pod)?;
            count = count.wrapping_add(1);
        }
    }
    Ok(count)
}

fn copy(indexed: &Indexed, times: u32) -> Result<usize, AllocError> {
    let mut count = 0usize;
    for _ in 0..times {
        let copy = indexed.try_copy()?;
        count = count.wrapping_add(copy.revision() as usize);
    }
    Ok(count)
}

fn owner(alloc: Global, indexed: &Indexed, times: u32) -> Result<usize, AllocError> {
    let mut count = 0usize;
    for turn in 0..times {
        let uid = uid(alloc, turn)?;
        count = count.wrapping_add(indexed.by_owner(alloc, uid.as_str())?.len());
    }
    Ok(count)
}

fn owed_at(
    alloc: Global,
    looks: &PerKind<Indexed>,
    pods: &[SharedObject],
    times: u32,
) -> Result<usize, AllocError> {
    let mut count = 0usize;
    for turn in 0..times {
        if let Some(pod) = of_turn(pods, turn) {
            let object = Some(pod.object());
            count = count.wrapping_add(keys_of(alloc, Kind::Pod, object, object, looks)?.len());
        }
    }
    Ok(count)
}

fn owed(
    alloc: Global,
    indexed: &Indexed,
    pods: &[SharedObject],
    times: u32,
) -> Result<usize, AllocError> {
    let looks = looks(alloc, indexed)?;
    owed_at(alloc, &looks, pods, times)
}

/// Publishes the delta that puts a Pod. Returns how many shifts there were.
fn publish_one(informer: &mut PlainInformer, pod: &SharedObject) -> Result<usize, AllocError> {
    informer.append(Delta::Put(pod.try_copy()?))?;
    Ok(informer.publish()?.len())
}

/// Publishes all Pods at once. Returns how many shifts there were.
fn publish_all(informer: &mut PlainInformer, pods: &[SharedObject]) -> Result<usize, AllocError> {
    for pod in pods {
        informer.append(Delta::Put(pod.try_copy()?))?;
    }
    Ok(informer.publish()?.len())
}

fn publish_in_turn(
    informer: &mut PlainInformer,
    pods: &[SharedObject],
    times: u32,
) -> Result<usize, AllocError> {
    let mut count = publish_all(informer, pods)?;
    for turn in 0..times {
        if let Some(pod) = of_turn(pods, turn) {
            count = count.wrapping_add(publish_one(informer, pod)?);
        }
    }
    Ok(count)
}

fn publish(alloc: Global, pods: &[SharedObject], times: u32) -> Result<usize, AllocError> {
    let mut informer = PlainInformer::new(alloc);
    publish_in_turn(&mut informer, pods, times)
}

/// Takes in the Pods, does what is asked for so many times, and returns how many objects or keys came of it.
fn run_with(
    alloc: Global,
    indexed: &mut Indexed,
    pods: &[SharedObject],
    what: What,
    times: u32,
) -> Result<usize, AllocError> {
    put_all(indexed, pods)?;
    match what {
        What::Put => put(indexed, pods, times),
        What::Copy => copy(indexed, times),
        What::Owner => owner(alloc, indexed, times),
        What::Owed => owed(alloc, indexed, pods, times),
        What::Publish => publish(alloc, pods, times),
    }
}

/// Makes the Pods, does what is asked for so many times, and returns how many objects or keys came of it.
pub fn run(alloc: Global, what: What, times: u32) -> Result<usize, AllocError> {
    let pods = pods(alloc)?;
    let mut indexed = Indexed::new(alloc);
    run_with(alloc, &mut indexed, pods.as_slice(), what, times)
}

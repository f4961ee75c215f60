//! What is planned of: the set, and its pods.
use crate::objects::{object, shared};
use crate::plan_bench::Way;
use crate::plan_texts::{pod, set};
use indexer::Indexed;
use object_keys::{Key, PerKind};
use reconcile_types::{Hand, Read};
use reflector::{Delta, SharedObject};
use spec_api::kinds::Kind;
use std::alloc::{AllocError, Global};

/// Returns the key of the object of a kind that is planned of.
pub fn key(alloc: Global, kind: Kind) -> Result<Key, AllocError> {
    Ok(Key {
        kind,
        namespace: String::from_str(alloc, "default")?,
        name: String::from_str(alloc, "web")?,
    })
}

/// Returns a hand with a key, whose looks show nothing, and with nothing read live.
pub fn empty_hand(alloc: Global, key: Key) -> Hand<Indexed> {
    Hand {
        key,
        looks: PerKind {
            config_maps: Some(Indexed::new(alloc)),
            pods: Some(Indexed::new(alloc)),
            replica_sets: Some(Indexed::new(alloc)),
            deployments: Some(Indexed::new(alloc)),
        },
        is_satisfied: true,
        reads: Vec::new(alloc),
    }
}

/// Has a look show these objects, and no others, as a list at revision 2 gives them.
pub fn show(seen: &mut Option<Indexed>, objects: Vec<SharedObject>) -> Result<(), AllocError> {
    let list = Delta::Replace(2, objects);
    match seen {
        Some(seen) => seen.apply(&list),
        None => Ok(()),
    }
}

/// Returns the list of the object of a kind that a text says, alone.
pub fn alone(alloc: Global, kind: Kind, text: &str) -> Result<Vec<SharedObject>, AllocError> {
    let mut objects = Vec::new(alloc);
    objects.push(shared(alloc, kind, text)?)?;
    Ok(objects)
}

/// Returns the pods.
fn pods(alloc: Global, count: u32) -> Result<Vec<SharedObject>, AllocError> {
    let mut pods = Vec::new(alloc);
    for number in 0..count {
        let text = pod(alloc, number)?;
        pods.push(shared(alloc, Kind::Pod, text.as_str())?)?;
    }
    Ok(pods)
}

/// Adds the live read of the set.
fn read(alloc: Global, reads: &mut Vec<Read>, text: &str) -> Result<(), AllocError> {
    let key = key(alloc, Kind::ReplicaSet)?;
    let found = Some(object(alloc, Kind::ReplicaSet, text)?);
    reads.push(Read { key, found })?;
    Ok(())
}

/// Has a hand look at the set, which a text says, and adds the set as it is read live.
fn take_set(alloc: Global, hand: &mut Hand<Indexed>, text: &str) -> Result<(), AllocError> {
    let sets = alone(alloc, Kind::ReplicaSet, text)?;
    show(&mut hand.looks.replica_sets, sets)?;
    read(alloc, &mut hand.reads, text)
}

/// Has a hand look at the set and its pods, and adds the set as it is read live.
pub fn fill_with_pods(
    alloc: Global,
    hand: &mut Hand<Indexed>,
    way: Way,
    count: u32,
) -> Result<(), AllocError> {
    show(&mut hand.looks.pods, pods(alloc, count)?)?;
    let text = set(alloc, way, count)?;
    take_set(alloc, hand, text.as_str())
}

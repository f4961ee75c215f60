//! The Pods by which an informer is measured whose map is read without waiting.
use crate::objects::shared;
use informer::Informer;
use object_keys::Key;
use reflector::{Delta, SharedObject};
use spec_api::kinds::Kind;
use std::alloc::{AllocError, Global};
use std::sync::Wait;

/// How many Pods there are.
pub const PODS: u32 = 10_000;

/// How many ReplicaSets control them.
const SETS: u32 = 100;

/// Returns the name of a Pod.
fn name(alloc: Global, number: u32) -> Result<String, AllocError> {
    format!(in alloc; "web-{:03}-{number:06}", number % SETS)
}

/// Returns the key of a Pod.
pub fn key(alloc: Global, number: u32) -> Result<Key, AllocError> {
    Ok(Key {
        kind: Kind::Pod,
        namespace: String::from_str(alloc, "default")?,
        name: name(alloc, number)?,
    })
}

/// Returns a Pod that one of the ReplicaSets controls.
fn pod(alloc: Global, number: u32) -> Result<SharedObject, AllocError> {
    let name = name(alloc, number)?;
    let (set, revision) = (number % SETS, u64::from(number) + 1);
    let text = format!(in alloc;
        "{{\"metadata\":{{\"creationTimestamp\":\"2026-01-01T00:00:00Z\",\"labels\":{{\"app\":\"web\"}},\"name\":\"{name}\",\"namespace\":\"default\",\"ownerReferences\":[{{\"apiVersion\":\"apps/v1\",\"blockOwnerDeletion\":true,\"controller\":true,\"kind\":\"ReplicaSet\",\"name\":\"web-{set:03}\",\"uid\":\"00000000-0000-8000-8000-{set:012}\"}}],\"resourceVersion\":\"{revision}\",\"uid\":\"00000000-0000-8000-8001-{number:012}\"}},\"spec\":{{\"containers\":[{{\"image\":\"registry.example/web:1\",\"name\":\"web\"}}],\"nodeName\":\"node-{set}\"}},\"status\":{{\"conditions\":[{{\"status\":\"True\",\"type\":\"Ready\"}}],\"phase\":\"Running\"}}}}"
    )?;
    shared(alloc, Kind::Pod, text.as_str())
}

/// Returns the Pods.
pub fn pods(alloc: Global) -> Result<Vec<SharedObject>, AllocError> {
    let mut pods = Vec::new(alloc);
    for number in 0..PODS {
        pods.push(pod(alloc, number)?)?;
    }
    Ok(pods)
}

/// Appends the delta that puts a Pod.
pub fn append(informer: &mut Informer, pod: &SharedObject) -> Result<(), AllocError> {
    match informer.append(Delta::Put(pod.try_copy()?)) {
        Ok(()) => Ok(()),
        Err(_) => Err(AllocError),
    }
}

/// Publishes the delta that puts the Pod of a turn: each in turn, and again from the first. Returns how many shifts there were.
pub fn publish_one<R: Wait>(
    rt: &R,
    informer: &mut Informer,
    pods: &[SharedObject],
    turn: u32,
) -> Result<usize, AllocError> {
    let Some(pod) = pods.get(turn as usize % PODS as usize) else {
        return Ok(0);
    };
    append(informer, pod)?;
    Ok(informer.publish(rt)?.len())
}

/// Publishes all Pods at once. Returns how many shifts there were.
pub fn publish_all<R: Wait>(
    rt: &R,
    informer: &mut Informer,
    pods: &[SharedObject],
) -> Result<usize, AllocError> {
    for pod in pods {
        append(informer, pod)?;
    }
    Ok(informer.publish(rt)?.len())
}

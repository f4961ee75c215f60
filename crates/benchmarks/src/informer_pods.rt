//! The Pods and ReplicaSets by which an indexed copy is measured.
use crate::objects::shared;
use reflector::SharedObject;
use spec_api::kinds::Kind;
use std::alloc::{AllocError, Global};

/// How many Pods there are.
pub const PODS: u32 = 10_000;

/// How many ReplicaSets there are.
pub const SETS: u32 = 100;

/// Returns the uid of a ReplicaSet.
pub fn uid(alloc: Global, number: u32) -> Result<String, AllocError> {
    format!(in alloc; "00000000-0000-8000-8000-{:012}", number % SETS)
}

/// Returns a Pod that one of the ReplicaSets controls.
pub fn pod(alloc: Global, number: u32) -> Result<SharedObject, AllocError> {
    let uid = uid(alloc, number)?;
    let set = number % SETS;
    let text = format!(in alloc;
        "{{\"metadata\":{{\"creationTimestamp\":\"2026-01-01T00:00:00Z\",\"labels\":{{\"app\":\"web\"}},\"name\":\"web-{set:03}-{number:06}\",\"namespace\":\"default\",\"ownerReferences\":[{{\"apiVersion\":\"apps/v1\",\"blockOwnerDeletion\":true,\"controller\":true,\"kind\":\"ReplicaSet\",\"name\":\"web-{set:03}\",\"uid\":\"{uid}\"}}],\"resourceVersion\":\"{number}\",\"uid\":\"00000000-0000-8000-8001-{number:012}\"}},\"spec\":{{\"containers\":[{{\"image\":\"registry.example/web:1\",\"name\":\"web\"}}],\"nodeName\":\"node-{set}\"}},\"status\":{{\"conditions\":[{{\"status\":\"True\",\"type\":\"Ready\"}}],\"phase\":\"Running\"}}}}"
    )?;
    shared(alloc, Kind::Pod, text.as_str())
}

/// Returns a ReplicaSet.
pub fn set(alloc: Global, number: u32) -> Result<SharedObject, AllocError> {
    let uid = uid(alloc, number)?;
    let text = format!(in alloc;
        "{{\"metadata\":{{\"name\":\"web-{number:03}\",\"namespace\":\"default\",\"ownerReferences\":[{{\"apiVersion\":\"apps/v1\",\"controller\":true,\"kind\":\"Deployment\",\"name\":\"web\",\"uid\":\"00000000-0000-8000-8002-000000000001\"}}],\"resourceVersion\":\"{number}\",\"uid\":\"{uid}\"}},\"spec\":{{\"selector\":{{\"matchLabels\":{{\"app\":\"web\"}}}}}}}}"
    )?;
    shared(alloc, Kind::ReplicaSet, text.as_str())
}

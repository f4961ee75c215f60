//! A turn of a ReplicaSet.
use crate::assertions::assert_text;
use crate::hands::{answers, show};
use crate::written::told;
use indexer::Indexed;
use reconcile_types::Hand;
use replicaset::{asks, plan};
use spec_api::kinds::Kind;
use spec_client_go::controller::Controller;
use std::alloc::{AllocError, Global};

/// A pod that is ready.
const P3: &str =
    r#"{"metadata":{"creationTimestamp":"2026-01-01T00:00:00Z","labels":{"app":"web"},"name":"p3","namespace":"default","ownerReferences":[{"apiVersion":"apps/v1","blockOwnerDeletion":true,"controller":true,"kind":"ReplicaSet","name":"web","uid":"u-web"}],"resourceVersion":"5","uid":"u-3"},"spec":{"nodeName":"n3"},"status":{"conditions":[{"status":"True","type":"Ready"}],"phase":"Running"}}"#;

/// Another one, on a node of its own.
const P4: &str =
    r#"{"metadata":{"creationTimestamp":"2026-01-01T00:00:00Z","labels":{"app":"web"},"name":"p4","namespace":"default","ownerReferences":[{"apiVersion":"apps/v1","blockOwnerDeletion":true,"controller":true,"kind":"ReplicaSet","name":"web","uid":"u-web"}],"resourceVersion":"6","uid":"u-4"},"spec":{"nodeName":"n4"},"status":{"conditions":[{"status":"True","type":"Ready"}],"phase":"Running"}}"#;

/// A pod that matches and has no owner.
const ORPHAN: &str =
    r#"{"metadata":{"labels":{"app":"web"},"name":"p5","namespace":"default","resourceVersion":"7","uid":"u-5"},"spec":{"nodeName":"n5"},"status":{"phase":"Running"}}"#;

/// A set of one with two pods, which are ready.
const ONE_OF_TWO: &str =
    r#"{"metadata":{"generation":1,"name":"web","namespace":"default","resourceVersion":"8","uid":"u-web"},"spec":{"replicas":1,"selector":{"matchLabels":{"app":"web"}},"template":{"metadata":{"labels":{"app":"web"}},"spec":{}}},"status":{"availableReplicas":2,"observedGeneration":1,"readyReplicas":2,"replicas":2}}"#;

/// Has a turn look at the set and the pods.
fn look(alloc: Global, hand: &mut Hand<Indexed>) -> Result<(), AllocError> {
    let looks = &mut hand.looks;
    show(alloc, &mut looks.pods, Kind::Pod, &[P4, P3, ORPHAN])?;
    show(
        alloc,
        &mut looks.replica_sets,
        Kind::ReplicaSet,
        &[ONE_OF_TWO],
    )
}

/// Returns what the turn of the set asks for, and what it commands.
pub(crate) fn told_of(alloc: Global, hand: &mut Hand<Indexed>) -> Result<String, AllocError> {
    look(alloc, hand)?;
    let keys = asks(alloc, hand)?;
    let plan = plan(alloc, hand)?;
    told(alloc, keys.as_slice(), plan.commands.as_slice())
}

// Among like pods the name decides. The orphan is not adopted, since the set was not read live.
#[test]
fn one_pod_too_many_goes(rt: HostRuntime) {
    let text = answers(rt.alloc(), Controller::ReplicaSet, Kind::ReplicaSet, "web");
    assert_text(&rt, &text, "ReplicaSet web,delete p3,u-3 none,");
}

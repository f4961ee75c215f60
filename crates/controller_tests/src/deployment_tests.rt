//! A turn of a Deployment.
use crate::assertions::assert_text;
use crate::hands::{answers, show};
use crate::written::told;
use deployment::{asks, plan};
use indexer::Indexed;
use reconcile_types::Hand;
use spec_api::kinds::Kind;
use spec_client_go::controller::Controller;
use std::alloc::{AllocError, Global};

/// A Deployment of ten that goes on to the image `web:2`, with the default pace: there may be 25% more, and 25% may be unavailable.
const DEPLOYMENT: &str =
    r#"{"metadata":{"generation":2,"name":"web","namespace":"default","resourceVersion":"9","uid":"u-web"},"spec":{"paused":false,"replicas":10,"revisionHistoryLimit":0,"selector":{"matchLabels":{"app":"web"}},"strategy":{"rollingUpdate":{"maxSurge":"25%","maxUnavailable":"25%"},"type":"RollingUpdate"},"template":{"metadata":{"labels":{"app":"web"}},"spec":{"containers":[{"image":"web:2","name":"web"}]}}}}"#;

/// Its old set, of which all ten pods are available.
const OLD: &str =
    r#"{"metadata":{"annotations":{"deployment.kubernetes.io/revision":"1"},"generation":1,"name":"web-1","namespace":"default","ownerReferences":[{"apiVersion":"apps/v1","controller":true,"kind":"Deployment","name":"web","uid":"u-web"}],"resourceVersion":"8","uid":"u-1"},"spec":{"replicas":10,"selector":{"matchLabels":{"app":"web"}},"template":{"metadata":{"labels":{"app":"web"}},"spec":{"containers":[{"image":"web:1","name":"web"}]}}},"status":{"availableReplicas":10,"observedGeneration":1,"readyReplicas":10,"replicas":10}}"#;

/// Its new set, of which none of three is.
const NEW: &str =
    r#"{"metadata":{"annotations":{"deployment.kubernetes.io/revision":"2"},"generation":1,"name":"web-2","namespace":"default","ownerReferences":[{"apiVersion":"apps/v1","controller":true,"kind":"Deployment","name":"web","uid":"u-web"}],"resourceVersion":"8","uid":"u-2"},"spec":{"replicas":3,"selector":{"matchLabels":{"app":"web"}},"template":{"metadata":{"labels":{"app":"web"}},"spec":{"containers":[{"image":"web:2","name":"web"}]}}},"status":{"availableReplicas":0,"observedGeneration":1,"readyReplicas":0,"replicas":3}}"#;

/// Has a turn look at the Deployment and its sets.
fn look(alloc: Global, hand: &mut Hand<Indexed>) -> Result<(), AllocError> {
    let looks = &mut hand.looks;
    show(
        alloc,
        &mut looks.replica_sets,
        Kind::ReplicaSet,
        &[OLD, NEW],
    )?;
    show(
        alloc,
        &mut looks.deployments,
        Kind::Deployment,
        &[DEPLOYMENT],
    )
}

/// Returns what the turn of the Deployment asks for, and what it commands.
pub(crate) fn told_of(alloc: Global, hand: &mut Hand<Indexed>) -> Result<String, AllocError> {
    look(alloc, hand)?;
    let keys = asks(alloc, hand)?;
    let plan = plan(alloc, hand)?;
    told(alloc, keys.as_slice(), plan.commands.as_slice())
}

// Two of the old pods may be missing, so that is how far the old set shrinks. Nothing is read live.
#[test]
fn the_old_set_shrinks(rt: HostRuntime) {
    let text = answers(rt.alloc(), Controller::Deployment, Kind::Deployment, "web");
    assert_text(&rt, &text, "update web-1,status web,");
}

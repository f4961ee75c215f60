//! What is planned of: a Deployment, and its sets.
use crate::objects::shared;
use crate::plan_bench::Way;
use crate::plan_hands::{alone, show};
use indexer::Indexed;
use reconcile_types::Hand;
use reflector::SharedObject;
use spec_api::kinds::Kind;
use std::alloc::{AllocError, Global};

/// How many pods the Deployment is to have.
const REPLICAS: u32 = 20;

/// How many pods a set has: while the new set grows, the new one and the one before it have half of them each, and then the
/// new one has all.
fn pods_of(way: Way, number: u32, last: u32) -> u32 {
    match way {
        Way::Rollout => if number >= last.saturating_sub(1) {
            REPLICAS / 2
        } else {
            0
        },
        _ => if number == last { REPLICAS } else { 0 },
    }
}

/// Returns the text of the Deployment, whose template is that of the last set.
fn deployment(alloc: Global, last: u32) -> Result<String, AllocError> {
    format!(in alloc;
        r#"{{"apiVersion":"apps/v1","kind":"Deployment","metadata":{{"generation":{last},"name":"web","namespace":"default","resourceVersion":"3","uid":"00000000-0000-8000-8000-000000000003"}},"spec":{{"replicas":{REPLICAS},"revisionHistoryLimit":10,"selector":{{"matchLabels":{{"app":"web"}}}},"strategy":{{"rollingUpdate":{{"maxSurge":"25%","maxUnavailable":"25%"}},"type":"RollingUpdate"}},"template":{{"metadata":{{"labels":{{"app":"web","tier":"front"}}}},"spec":{{"containers":[{{"image":"registry.example.com/web:1.{last}","name":"web","ports":[{{"containerPort":80,"protocol":"TCP"}}]}}]}}}}}}}}"#
    )
}

/// Returns the text of a set of the Deployment, as one of its revisions.
fn set(alloc: Global, way: Way, number: u32, last: u32) -> Result<String, AllocError> {
    let pods = pods_of(way, number, last);
    let minute = number / 60 % 60;
    let second = number % 60;
    format!(in alloc;
        r#"{{"apiVersion":"apps/v1","kind":"ReplicaSet","metadata":{{"annotations":{{"deployment.kubernetes.io/revision":"{number}"}},"creationTimestamp":"2026-01-01T00:{minute:02}:{second:02}Z","generation":1,"labels":{{"app":"web","pod-template-hash":"{number:010}","tier":"front"}},"name":"web-{number:010}","namespace":"default","ownerReferences":[{{"apiVersion":"apps/v1","blockOwnerDeletion":true,"controller":true,"kind":"Deployment","name":"web","uid":"00000000-0000-8000-8000-000000000003"}}],"resourceVersion":"4","uid":"00000000-0000-8000-9000-{number:012}"}},"spec":{{"replicas":{pods},"selector":{{"matchLabels":{{"app":"web","pod-template-hash":"{number:010}"}}}},"template":{{"metadata":{{"labels":{{"app":"web","pod-template-hash":"{number:010}","tier":"front"}}}},"spec":{{"containers":[{{"image":"registry.example.com/web:1.{number}","name":"web","ports":[{{"containerPort":80,"protocol":"TCP"}}]}}]}}}}}},"status":{{"availableReplicas":{pods},"observedGeneration":1,"readyReplicas":{pods},"replicas":{pods}}}}}"#
    )
}

/// Returns the sets.
fn sets(alloc: Global, way: Way, count: u32) -> Result<Vec<SharedObject>, AllocError> {
    let mut sets = Vec::new(alloc);
    for number in 0..count {
        let text = set(alloc, way, number, count - 1)?;
        sets.push(shared(alloc, Kind::ReplicaSet, text.as_str())?)?;
    }
    Ok(sets)
}

/// Has a hand look at the Deployment and so many sets.
pub fn fill_with_sets(
    alloc: Global,
    hand: &mut Hand<Indexed>,
    way: Way,
    count: u32,
) -> Result<(), AllocError> {
    show(&mut hand.looks.replica_sets, sets(alloc, way, count)?)?;
    let text = deployment(alloc, count.saturating_sub(1))?;
    let deployments = alone(alloc, Kind::Deployment, text.as_str())?;
    show(&mut hand.looks.deployments, deployments)
}

//! The set and its pods, as texts.
use crate::plan_bench::Way;
use std::alloc::{AllocError, Global};

/// How many nodes there are.
const NODES: u32 = 50;

/// Returns the text of a pod of the set: it runs on one of the nodes, half of the pods are ready, and it costs between -50
/// and 50 to delete it.
pub fn pod(alloc: Global, number: u32) -> Result<String, AllocError> {
    let node = number % NODES;
    let ready = if number / NODES % 2 == 0 {
        "True"
    } else {
        "False"
    };
    let cost = (number % 101) as i32 - 50;
    let minute = number / 60 % 60;
    let second = number % 60;
    format!(in alloc;
        r#"{{"apiVersion":"v1","kind":"Pod","metadata":{{"annotations":{{"controller.kubernetes.io/pod-deletion-cost":"{cost}"}},"creationTimestamp":"2026-01-01T00:{minute:02}:{second:02}Z","generateName":"web-","labels":{{"app":"web","tier":"front"}},"name":"web-{number:05}","namespace":"default","ownerReferences":[{{"apiVersion":"apps/v1","blockOwnerDeletion":true,"controller":true,"kind":"ReplicaSet","name":"web","uid":"00000000-0000-8000-8000-000000000002"}}],"resourceVersion":"{number}","uid":"00000000-0000-8000-9000-{number:012}"}},"spec":{{"containers":[{{"image":"registry.example.com/web:1.0","name":"web","ports":[{{"containerPort":80,"protocol":"TCP"}}],"resources":{{"limits":{{"cpu":"500m","memory":"128Mi"}}}}}}],"nodeName":"node-{node:02}","restartPolicy":"Always"}},"status":{{"conditions":[{{"status":"True","type":"Initialized"}},{{"status":"True","type":"PodScheduled"}},{{"status":"{ready}","type":"ContainersReady"}},{{"status":"{ready}","type":"Ready"}}],"phase":"Running","podIP":"10.0.0.1"}}}}"#
    )
}

/// Returns what the metadata of the set says of its deletion.
fn deletion(way: Way) -> &'static str {
    match way {
        Way::Status | Way::Half | Way::Rollout | Way::History => "",
        Way::Foreground =>
            r#""deletionTimestamp":"2026-01-01T01:00:00Z","finalizers":["foregroundDeletion"],"#,
        Way::Orphan => r#""deletionTimestamp":"2026-01-01T01:00:00Z","finalizers":["orphan"],"#,
    }
}

/// Returns the text of the set.
pub fn set(alloc: Global, way: Way, pods: u32) -> Result<String, AllocError> {
    let deletion = deletion(way);
    let replicas = match way {
        Way::Half => pods / 2,
        _ => pods,
    };
    format!(in alloc;
        r#"{{"apiVersion":"apps/v1","kind":"ReplicaSet","metadata":{{{deletion}"generation":1,"name":"web","namespace":"default","resourceVersion":"2","uid":"00000000-0000-8000-8000-000000000002"}},"spec":{{"replicas":{replicas},"selector":{{"matchLabels":{{"app":"web"}}}},"template":{{"metadata":{{"labels":{{"app":"web","tier":"front"}}}},"spec":{{"containers":[{{"image":"registry.example.com/web:1.0","name":"web"}}]}}}}}}}}"#
    )
}

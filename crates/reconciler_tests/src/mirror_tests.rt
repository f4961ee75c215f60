//! The example's controller, by what is shown, and by what the server answers.
use crate::assertions::assert_text;
use crate::scenes::reconciled;
use mirror_example::Mirror;
use scripted_api::ScriptedAnswer;
use spec_api::kinds::Kind;
use std::alloc::{AllocError, Global};

const POD: &str =
    "{\"metadata\":{\"name\":\"a\",\"namespace\":\"default\",\"uid\":\"u\",\"resourceVersion\":\"4\"},\"status\":{\"phase\":\"Running\"}}";

const BEHIND: &str =
    "{\"metadata\":{\"name\":\"a\",\"namespace\":\"default\",\"uid\":\"m\",\"resourceVersion\":\"5\",\"ownerReferences\":[{\"apiVersion\":\"v1\",\"controller\":true,\"kind\":\"Pod\",\"name\":\"a\",\"uid\":\"u\"}]},\"data\":{\"phase\":\"Pending\"}}";

const CREATED: &str =
    "POST /api/v1/namespaces/default/configmaps {\"data\":{\"phase\":\"Running\"},\"metadata\":{\"name\":\"a\",\"ownerReferences\":[{\"apiVersion\":\"v1\",\"blockOwnerDeletion\":true,\"controller\":true,\"kind\":\"Pod\",\"name\":\"a\",\"uid\":\"u\"}]}}\ndone";

const CONFLICT: &str =
    "PATCH /api/v1/namespaces/default/configmaps/a {\"data\":{\"phase\":\"Running\"},\"metadata\":{\"resourceVersion\":\"5\"}}\nfailed: the server answers with 409";

const LEFT: &str =
    "DELETE /api/v1/namespaces/default/configmaps/a {\"preconditions\":{\"uid\":\"m\"}}\nfailed: the server does not reply";

/// What a reconcile of the Pod `a` asks and how it ends, by these objects and answers.
fn of_a(
    alloc: Global,
    objects: &[(Kind, &str)],
    answers: &[ScriptedAnswer<'_>],
) -> Result<String, AllocError> {
    reconciled(alloc, &Mirror, "a", objects, answers)
}

#[test]
fn a_missing_config_map_is_made(rt: HostRuntime) {
    let seen = of_a(
        rt.alloc(),
        &[(Kind::Pod, POD)],
        &[ScriptedAnswer::Replied(201, "{}")],
    );
    assert_text(&rt, &seen, CREATED);
}

#[test]
fn a_conflict_is_a_failure(rt: HostRuntime) {
    let seen = of_a(
        rt.alloc(),
        &[(Kind::Pod, POD), (Kind::ConfigMap, BEHIND)],
        &[ScriptedAnswer::Replied(409, "{}")],
    );
    assert_text(&rt, &seen, CONFLICT);
}

#[test]
fn what_is_left_is_deleted_and_tried_again_while_nothing_comes_back(rt: HostRuntime) {
    let seen = of_a(rt.alloc(), &[(Kind::ConfigMap, BEHIND)], &[]);
    assert_text(&rt, &seen, LEFT);
}

#[test]
fn without_a_pod_nothing_is_asked(rt: HostRuntime) {
    let seen = of_a(rt.alloc(), &[], &[]);
    assert_text(&rt, &seen, "done");
}

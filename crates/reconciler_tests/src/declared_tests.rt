//! Objects that are declared: made where they are absent, patched where they say something else.
use crate::assertions::assert_text;
use crate::scenes::{key, object, told};
use reconciler::create_or_patch;
use serde_json::json;
use spec_api::kinds::Kind;
use std::alloc::{AllocError, Global};

const OLD: &str =
    "{\"metadata\":{\"name\":\"a\",\"resourceVersion\":\"7\",\"labels\":{\"app\":\"web\"}},\"data\":{\"phase\":\"Pending\",\"more\":\"kept\"}}";

const CREATED: &str =
    "POST /api/v1/namespaces/default/configmaps {\"data\":{\"phase\":\"Running\"},\"metadata\":{\"name\":\"a\"}}";

const PATCHED: &str =
    "PATCH /api/v1/namespaces/default/configmaps/a {\"data\":{\"phase\":\"Running\"},\"metadata\":{\"resourceVersion\":\"7\"}}";

/// What is asked so that the ConfigMap `a` says a phase, by what is shown of it.
fn declared(alloc: Global, shown: Option<&str>, phase: &str) -> Result<String, AllocError> {
    let key = key(alloc, Kind::ConfigMap, "a")?;
    let data = json!(in alloc; {"phase": phase})?;
    let wanted = json!(in alloc; {"data": data})?;
    let next = match shown {
        Some(text) => {
            let seen = object(alloc, Kind::ConfigMap, text)?;
            create_or_patch(alloc, key, Some(&seen), wanted)
        }
        None => create_or_patch(alloc, key, None, wanted),
    };
    told(alloc, next)
}

#[test]
fn what_is_absent_is_created(rt: HostRuntime) {
    assert_text(&rt, &declared(rt.alloc(), None, "Running"), CREATED);
}

#[test]
fn what_says_something_else_is_patched(rt: HostRuntime) {
    assert_text(&rt, &declared(rt.alloc(), Some(OLD), "Running"), PATCHED);
}

#[test]
fn what_says_so_is_left(rt: HostRuntime) {
    assert_text(&rt, &declared(rt.alloc(), Some(OLD), "Pending"), "nothing");
}

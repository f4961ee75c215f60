//! Finalizers that are added and removed.
use crate::assertions::assert_text;
use crate::scenes::{key, object, told};
use reconciler::{ensure_finalizer, remove_finalizer};
use spec_api::kinds::Kind;
use std::alloc::{AllocError, Global};

const HELD: &str =
    "{\"metadata\":{\"name\":\"a\",\"resourceVersion\":\"7\",\"finalizers\":[\"example.com/one\",\"example.com/two\"]}}";

const THREE: &str =
    "PATCH /api/v1/namespaces/default/pods/a {\"metadata\":{\"finalizers\":[\"example.com/one\",\"example.com/two\",\"example.com/three\"],\"resourceVersion\":\"7\"}}";

const TWO: &str =
    "PATCH /api/v1/namespaces/default/pods/a {\"metadata\":{\"finalizers\":[\"example.com/two\"],\"resourceVersion\":\"7\"}}";

/// What is asked so that the Pod `a` has a finalizer.
fn ensured(alloc: Global, finalizer: &str) -> Result<String, AllocError> {
    let (key, pod) = (key(alloc, Kind::Pod, "a")?, object(alloc, Kind::Pod, HELD)?);
    told(alloc, ensure_finalizer(alloc, key, &pod, finalizer))
}

/// What is asked so that the Pod `a` has a finalizer no longer.
fn removed(alloc: Global, finalizer: &str) -> Result<String, AllocError> {
    let (key, pod) = (key(alloc, Kind::Pod, "a")?, object(alloc, Kind::Pod, HELD)?);
    told(alloc, remove_finalizer(alloc, key, &pod, finalizer))
}

#[test]
fn a_finalizer_is_added_after_the_others(rt: HostRuntime) {
    assert_text(&rt, &ensured(rt.alloc(), "example.com/three"), THREE);
}

#[test]
fn one_that_is_there_is_not_added(rt: HostRuntime) {
    assert_text(&rt, &ensured(rt.alloc(), "example.com/two"), "nothing");
}

#[test]
fn a_finalizer_is_removed_and_no_other(rt: HostRuntime) {
    assert_text(&rt, &removed(rt.alloc(), "example.com/one"), TWO);
}

#[test]
fn one_that_is_not_there_is_not_removed(rt: HostRuntime) {
    assert_text(&rt, &removed(rt.alloc(), "example.com/three"), "nothing");
}

/// What is asked so that a Pod that says no version has a finalizer.
fn unversioned(alloc: Global) -> Result<String, AllocError> {
    let pod = object(alloc, Kind::Pod, "{\"metadata\":{\"name\":\"a\"}}")?;
    let key = key(alloc, Kind::Pod, "a")?;
    told(alloc, ensure_finalizer(alloc, key, &pod, "example.com/one"))
}

#[test]
fn what_says_no_version_is_not_written_to(rt: HostRuntime) {
    assert_text(&rt, &unversioned(rt.alloc()), "the object says no version");
}

//! A Pod that is released, where the ReplicaSet `web` of the Deployment `site` is looked at.
use crate::assertions::assert_text;
use crate::fixtures::{POD, RELEASED, WEB, shared};
use crate::written::tell;
use event_handlers::keys_of;
use indexer::Indexed;
use object_keys::{PerKind, WorkKey};
use reflector::{Delta, SharedObject};
use spec_api::kinds::Kind;
use spec_client_go::controller::Controller;
use std::alloc::{AllocError, Global};

/// Looks at which nothing is there.
fn no_looks(alloc: Global) -> PerKind<Indexed> {
    PerKind::made(|_| Indexed::new(alloc))
}

/// Puts `web` into a copy.
fn put_web(alloc: Global, replica_sets: &mut Indexed) -> Result<(), AllocError> {
    let web = Delta::Put(shared(alloc, Kind::ReplicaSet, WEB)?);
    replica_sets.apply(&web)
}

/// The word of a controller.
fn word(controller: Controller) -> &'static str {
    match controller {
        Controller::ReplicaSet => "rs",
        Controller::Deployment => "deploy",
        Controller::Collector => "gc",
    }
}

/// Adds a key as words to a text, with a comma after it.
fn tell_key(text: &mut String, key: &WorkKey) -> Result<(), AllocError> {
    text.push_str(word(key.controller))?;
    text.push(' ')?;
    tell(text, key.key.kind.name(), key.key.name.as_str())
}

/// The keys as words.
fn said(alloc: Global, keys: &[WorkKey]) -> Result<String, AllocError> {
    let mut text = String::new(alloc);
    for key in keys {
        tell_key(&mut text, key)?;
    }
    Ok(text)
}

/// What a change of a Pod owes.
fn owed_by(
    alloc: Global,
    old: &SharedObject,
    new: &SharedObject,
    looks: &PerKind<Indexed>,
) -> Result<String, AllocError> {
    let (old, new) = (Some(old.object()), Some(new.object()));
    let keys = keys_of(alloc, Kind::Pod, old, new, looks)?;
    said(alloc, keys.as_slice())
}

/// What the release of the Pod owes, where `web` alone is looked at.
fn owed_at(alloc: Global, looks: &mut PerKind<Indexed>) -> Result<String, AllocError> {
    put_web(alloc, &mut looks.replica_sets)?;
    let old = shared(alloc, Kind::Pod, POD)?;
    let new = shared(alloc, Kind::Pod, RELEASED)?;
    owed_by(alloc, &old, &new, looks)
}

/// What the release of the Pod owes.
fn owed(alloc: Global) -> Result<String, AllocError> {
    let mut looks = no_looks(alloc);
    owed_at(alloc, &mut looks)
}

// Its old owner, the sets that may adopt it, and the Deployment over its old owner.
#[test]
fn a_released_pod_owes_its_old_owner(rt: HostRuntime) {
    let keys = owed(rt.alloc());
    assert_text(&rt, &keys, OWED);
}

const OWED: &str = "rs ReplicaSet web,deploy Deployment site,gc Pod p,gc ReplicaSet web,";

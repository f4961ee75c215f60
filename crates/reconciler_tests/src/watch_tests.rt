//! Watches that share a kind.
use crate::assertions::assert_text;
use crate::scenes::{key, object, shown};
use controller_layers::Scoped;
use controller_watches::{Watch, check_watches, joint_watches};
use indexer::Shift;
use mirror_example::Mirror;
use object_keys::Key;
use reconciler::Printable;
use reflector::SharedObject;
use spec_api::kinds::Kind;
use std::alloc::{AllocError, Global};

const WEB: &str =
    "{\"metadata\":{\"name\":\"a\",\"namespace\":\"default\",\"labels\":{\"app\":\"web\"}}}";

const OTHER: &str = "{\"metadata\":{\"name\":\"a\",\"namespace\":\"default\"}}";

/// Two selections of Pods in one namespace, and all ConfigMaps.
const WATCHES: [Watch<'static>; 3] = [
    Watch {
        kind: Kind::Pod,
        namespace: Some("default"),
        selector: Some("app=web"),
    },
    Watch {
        kind: Kind::Pod,
        namespace: Some("default"),
        selector: Some("app=db"),
    },
    Watch {
        kind: Kind::ConfigMap,
        namespace: None,
        selector: None,
    },
];

/// A line of each watch that is followed.
fn followed(alloc: Global) -> Result<String, AllocError> {
    if check_watches(alloc, &WATCHES).is_err() {
        return Err(AllocError);
    }
    let mut text = String::new(alloc);
    for watch in &joint_watches(alloc, &WATCHES)? {
        text.push_str(watch.kind.name())?;
        text.push_str(" ")?;
        text.push_str(watch.namespace.unwrap_or("all"))?;
        text.push_str(" ")?;
        text.push_str(watch.selector.unwrap_or("any"))?;
        text.push_str("\n")?;
    }
    Ok(text)
}

#[test]
fn of_a_kind_the_smallest_scope_is_followed_that_holds_its_watches(rt: HostRuntime) {
    assert_text(
        &rt,
        &followed(rt.alloc()),
        "ConfigMap all any\nPod default any\n",
    );
}

/// Whether the first watch holds a Pod.
fn held(alloc: Global, text: &str) -> Result<String, AllocError> {
    let pod = object(alloc, Kind::Pod, text)?;
    match WATCHES[0].holds(alloc, &key(alloc, Kind::Pod, "a")?, &pod) {
        Ok(true) => String::from_str(alloc, "held"),
        Ok(false) => String::from_str(alloc, "not held"),
        Err(_) => Err(AllocError),
    }
}

#[test]
fn a_watch_holds_what_has_its_labels(rt: HostRuntime) {
    assert_text(&rt, &held(rt.alloc(), WEB), "held");
}

#[test]
fn a_watch_does_not_hold_what_has_them_not(rt: HostRuntime) {
    assert_text(&rt, &held(rt.alloc(), OTHER), "not held");
}

/// The keys that a new Pod owes the example, of which these watches hold some.
fn owed(alloc: Global, text: &str) -> Result<String, AllocError> {
    let Ok(scoped) = Scoped::new(alloc, &Mirror, &WATCHES) else {
        return Err(AllocError);
    };
    let change = Shift {
        key: key(alloc, Kind::Pod, "a")?,
        old: None,
        new: Some(SharedObject::new(alloc, object(alloc, Kind::Pod, text)?)?),
    };
    let keys: Vec<Key> = scoped.keys_within(alloc, &change, &shown(alloc, &[])?)?;
    match keys.first() {
        Some(key) => key.printed(alloc),
        None => String::from_str(alloc, "nothing"),
    }
}

#[test]
fn a_change_within_a_watch_is_handed_on(rt: HostRuntime) {
    assert_text(&rt, &owed(rt.alloc(), WEB), "Pod default/a");
}

#[test]
fn a_change_outside_of_all_watches_is_not(rt: HostRuntime) {
    assert_text(&rt, &owed(rt.alloc(), OTHER), "nothing");
}

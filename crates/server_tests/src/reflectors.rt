//! Reflectors that are given bodies and frames which no server of ours writes.
use reflector::faults::ListFault;
use reflector::reflectors::Reflector;
use spec_api::kinds::Kind;
use spec_client_go::reflectors::{Ask, End};
use std::alloc::Global;

const LIST: &str =
    "{\"apiVersion\":\"v1\",\"items\":[{\"data\":{\"k\":\"v\"},\"metadata\":{\"creationTimestamp\":\"2026-01-01T00:00:00Z\",\"name\":\"a\",\"namespace\":\"default\",\"resourceVersion\":\"2\",\"uid\":\"00000000-0000-8000-8000-000000000002\"}}],\"kind\":\"ConfigMapList\",\"metadata\":{\"resourceVersion\":\"2\"}}";

/// A frame after the list, what ends the watch, and what is then asked for.
const FRAMES: [(&str, Option<End>, Ask); 3] = [
    (
        "{\"object\":{\"code\":410},\"type\":\"ERROR\"}\n",
        Some(End::Expired),
        Ask::List,
    ),
    (
        "{\"object\":{\"metadata\":{\"name\":\"a\",\"namespace\":\"d\",\"uid\":\"u\",\"resourceVersion\":\"2\"}},\"type\":\"ADDED\"}\n",
        Some(End::Unreadable),
        Ask::List,
    ),
    (
        "{\"object\":{\"apiVersion\":\"v1\",\"kind\":\"ConfigMap\",\"metadata\":{\"resourceVersion\":\"5\"}},\"type\":\"BOOKMARK\"}\n",
        None,
        Ask::Watch(5),
    ),
];

/// Gives a reflector the list. Returns whether it was taken in.
fn is_listed(alloc: Global, reflector: &mut Reflector) -> bool {
    reflector.on_list(alloc, LIST.as_bytes()).is_ok()
}

/// Gives a reflector a frame. Returns whether it was taken in, and ends the watch so.
fn is_ended(alloc: Global, reflector: &mut Reflector, text: &str, end: Option<End>) -> bool {
    match &reflector.feed(alloc, text.as_bytes()) {
        Ok(fed) => fed.end == end,
        Err(_) => false,
    }
}

/// Returns whether a frame ends the watch so, and this is asked for next.
fn ends_so(alloc: Global, text: &str, end: Option<End>, next: Ask) -> bool {
    let mut reflector = Reflector::new(alloc, Kind::ConfigMap);
    is_listed(alloc, &mut reflector)
        && is_ended(alloc, &mut reflector, text, end)
        && reflector.next() == next
}

/// Returns the first frame that does not end the watch as it has to.
fn first_unlike(alloc: Global) -> Option<usize> {
    for (place, frame) in FRAMES.iter().enumerate() {
        if !ends_so(alloc, frame.0, frame.1, frame.2) {
            return Some(place);
        }
    }
    None
}

#[test]
fn watches_end(rt: HostRuntime) {
    assert_eq!(rt; first_unlike(rt.alloc()), None);
}

/// What is no list of ConfigMaps.
const OTHERS: [&str; 3] = [
    "{",
    "{\"apiVersion\":\"v1\",\"items\":[],\"kind\":\"PodList\",\"metadata\":{\"resourceVersion\":\"2\"}}",
    "{\"apiVersion\":\"v1\",\"items\":[{}],\"kind\":\"ConfigMapList\",\"metadata\":{\"resourceVersion\":\"2\"}}",
];

/// Returns whether a body is refused, as one that is no list of ConfigMaps.
fn is_refused(alloc: Global, body: &str) -> bool {
    let mut reflector = Reflector::new(alloc, Kind::ConfigMap);
    reflector.on_list(alloc, body.as_bytes()).err() == Some(ListFault::Unreadable)
}

/// Returns the first body that is not refused.
fn first_accepted(alloc: Global) -> Option<usize> {
    for (place, body) in OTHERS.iter().enumerate() {
        if !is_refused(alloc, body) {
            return Some(place);
        }
    }
    None
}

#[test]
fn lists_are_refused(rt: HostRuntime) {
    assert_eq!(rt; first_accepted(rt.alloc()), None);
}

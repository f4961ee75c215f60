//! What is told of keys whose reconciles fail.
use crate::assertions::assert_text;
use crate::scenes::{key, shown};
use api_notes::{Notes, Trouble};
use controller_layers::Telling;
use mirror_example::Mirror;
use reconciler::{Failure, Reconciler};
use request_parts::Request;
use scripted_api::{Script, ScriptedAnswer};
use spec_api::kinds::Kind;
use std::alloc::{AllocError, Global};
use std::sync::Wait;
use std::sync::atomic::{AtomicU64, Ordering};

const POD: &str =
    "{\"metadata\":{\"name\":\"a\",\"namespace\":\"default\",\"uid\":\"u\",\"resourceVersion\":\"4\"}}";

/// Counts what it is told of keys.
#[derive(Drop)]
struct Counting {
    failed: AtomicU64,
    recovered: AtomicU64,
}

impl Notes for Counting {
    fn trouble(&self, _kind: Kind, _trouble: Trouble) {}

    fn over(&self, _kind: Kind, _trouble: Trouble) {}

    fn refused(&self, _request: &Request, _code: u16, _body: &[u8]) {}

    fn failed(&self, _key: &str, _failure: Failure) {
        self.failed.fetch_add(1, Ordering::SeqCst);
    }

    fn recovered(&self, _key: &str) {
        self.recovered.fetch_add(1, Ordering::SeqCst);
    }
}

/// How often it is told that the Pod `a` fails, and that it is fine again, where its requests are answered so.
fn told<R: Wait>(
    rt: &R,
    alloc: Global,
    answers: &[ScriptedAnswer<'_>],
) -> Result<String, AllocError> {
    let notes = Counting {
        failed: AtomicU64::new(0),
        recovered: AtomicU64::new(0),
    };
    let telling = Telling::new(rt, alloc, &Mirror, &notes);
    let mut api = Script::new(alloc, answers);
    let (key, shown) = (
        key(alloc, Kind::Pod, "a")?,
        shown(alloc, &[(Kind::Pod, POD)])?,
    );
    for _ in answers {
        let _ = telling.reconcile(alloc, &key, &shown, &mut api);
    }
    let failed = notes.failed.load(Ordering::SeqCst);
    let recovered = notes.recovered.load(Ordering::SeqCst);
    format!(in alloc; "{failed} failed, {recovered} recovered")
}

#[test]
fn a_failure_is_told_once_and_then_that_it_is_over(rt: HostRuntime) {
    let seen = told(
        &rt,
        rt.alloc(),
        &[
            ScriptedAnswer::Replied(503, "{}"),
            ScriptedAnswer::Replied(503, "{}"),
            ScriptedAnswer::Replied(201, "{}"),
            ScriptedAnswer::Replied(201, "{}"),
        ],
    );
    assert_text(&rt, &seen, "1 failed, 1 recovered");
}

#[test]
fn conflicts_are_not_told(rt: HostRuntime) {
    let seen = told(
        &rt,
        rt.alloc(),
        &[
            ScriptedAnswer::Replied(409, "{}"),
            ScriptedAnswer::Replied(409, "{}"),
        ],
    );
    assert_text(&rt, &seen, "0 failed, 0 recovered");
}

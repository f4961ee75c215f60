//! Delays and the moments at which keys come due, from outside.
use crate::assertions::{assert_same, assert_text};
use crate::workqueue_tests::work_key;
use backoff::{Backoff, Delayed};
use object_keys::WorkKey;
use std::alloc::{AllocError, Global};

/// Returns the delays of a key that fails as often as there are delays to be compared.
fn delays_of(alloc: Global, backoff: &mut Backoff, key: &WorkKey) -> Result<Vec<u64>, AllocError> {
    let mut delays = Vec::new(alloc);
    for _ in DELAYS {
        delays.push(backoff.delay(key)?)?;
    }
    Ok(delays)
}

/// Returns the delays of a key that fails 39 times.
fn delays(alloc: Global) -> Result<Vec<u64>, AllocError> {
    let key = work_key(alloc, "web")?;
    let mut backoff = Backoff::new(alloc);
    delays_of(alloc, &mut backoff, &key)
}

#[test]
fn delays_double(rt: HostRuntime) {
    let delays = delays(rt.alloc());
    assert_same(&rt, &delays.as_deref(), &Ok(DELAYS));
}

const DELAYS: &[u64] = &[
    5, 10, 20, 40, 80, 160, 320, 640, 1_280, 2_560, 5_120, 10_240, 20_480, 40_960, 81_920, 163_840,
    327_680, 655_360, 1_000_000, 1_000_000, 1_000_000, 1_000_000, 1_000_000, 1_000_000, 1_000_000,
    1_000_000, 1_000_000, 1_000_000, 1_000_000, 1_000_000, 1_000_000, 1_000_000, 1_000_000,
    1_000_000, 1_000_000, 1_000_000, 1_000_000, 1_000_000, 1_000_000,
];

/// The moments at which keys are to come due.
const MOMENTS: [(&str, u64); 4] = [("web", 20), ("api", 20), ("db", 30), ("db", 10)];

/// Two keys that come due at 20, and one that is to come at 30 and then at 10.
fn three_keys(alloc: Global) -> Result<Delayed, AllocError> {
    let mut delayed = Delayed::new(alloc);
    for &(name, moment) in &MOMENTS {
        delayed.add_after(work_key(alloc, name)?, moment)?;
    }
    Ok(delayed)
}

/// Adds the names of the keys that are due at a moment to a text, each with a space behind it.
fn tell_due(text: &mut String, delayed: &mut Delayed, moment: u64) -> Result<(), AllocError> {
    for key in delayed.due(moment)?.iter() {
        text.push_str(key.key.name.as_str())?;
        text.push(' ')?;
    }
    text.push(';')
}

/// Returns which keys are due at 9, at 20 and at 50.
fn due(alloc: Global) -> Result<String, AllocError> {
    let mut text = String::new(alloc);
    let mut delayed = three_keys(alloc)?;
    for moment in &[9, 20, 50] {
        tell_due(&mut text, &mut delayed, *moment)?;
    }
    Ok(text)
}

#[test]
fn keys_come_due_in_order(rt: HostRuntime) {
    let text = due(rt.alloc());
    assert_text(&rt, &text, ";db api web ;;");
}

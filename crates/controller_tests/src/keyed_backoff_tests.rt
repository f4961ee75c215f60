//! Delays of a text that fails.
use crate::assertions::assert_same;
use keyed_queues::KeyedBackoff;
use std::alloc::{AllocError, Global};

/// The delays of a text, and how often it has failed in a row before a success and after it.
type Seen = ([u64; 3], [Option<u32>; 2]);

/// Has a text fail twice, and once more after a success.
fn fail(backoff: &mut KeyedBackoff<String>, key: &String) -> Result<Seen, AllocError> {
    let first = backoff.delay(key)?;
    let second = backoff.delay(key)?;
    let before = backoff.failures(key);
    backoff.forget(key);
    let after = backoff.failures(key);
    Ok(([first, second, backoff.delay(key)?], [before, after]))
}

/// Returns what is seen as the text `web` fails.
fn delays(alloc: Global) -> Result<Seen, AllocError> {
    let key = String::from_str(alloc, "web")?;
    let mut backoff = KeyedBackoff::new(alloc);
    fail(&mut backoff, &key)
}

#[test]
fn delays_double_until_a_success(rt: HostRuntime) {
    assert_same(&rt, &delays(rt.alloc()), &Ok(([5, 10, 5], [Some(2), None])));
}

//! The assertions of the tests, in functions of their own: what is printed where values differ is proved once, and not in each test.
use std::alloc::AllocError;
use std::process::Abort;

/// Ends a test that saw another text than it wanted, or that ran out of memory, and prints both.
pub(crate) fn assert_text(rt: &impl Abort, seen: &Result<String, AllocError>, wanted: &str) {
    assert_eq!(*rt; seen.as_deref(), Ok(wanted));
}

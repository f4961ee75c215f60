//! How watches begin.
ghost use Rattle.std.specs.Prelude.{◌≡◌};
ghost use Rattle.spec_api.specs.ListQueries.{later_start, plain_start, start_of, watch_from};

use spec_api::versions::{Match, Start};

/// Returns the revision that is named; 0 names none.
fn named(version: Option<u64>) -> Option<u64>
    ensures { result ≡ watch_from version }
{
    match version {
        None => None,
        Some(0) => None,
        Some(revision) => Some(revision),
    }
}

/// Returns how a watch begins that says nothing of initial events.
fn plain_start(version: Option<u64>) -> Start
    ensures { result ≡ plain_start version }
{
    match version {
        None => Start::Listed,
        Some(0) => Start::Listed,
        Some(revision) => Start::After(revision),
    }
}

/// Returns how a watch begins that wants no initial events.
fn later_start(version: Option<u64>) -> Start
    ensures { result ≡ later_start version }
{
    match version {
        None => Start::Present,
        Some(0) => Start::Present,
        Some(revision) => Start::After(revision),
    }
}

/// Returns how a watch begins, by whether initial events are named and wanted, how the revision is to be matched, and the
/// revision; nothing, if these do not go together.
pub(crate) fn start_of(initial: Option<bool>, matched: Match, version: Option<u64>) -> Option<Start>
    ensures { result ≡ start_of initial matched version }
{
    match (initial, matched) {
        (None, Match::Unset) => Some(plain_start(version)),
        (Some(true), Match::NotOlderThan) => Some(Start::Streamed(named(version))),
        (Some(false), Match::NotOlderThan) => Some(later_start(version)),
        _ => None,
    }
}

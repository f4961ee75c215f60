//! Which kinds a server refuses to list.
ghost use Rattle.std.specs.Prelude.{◌≡◌};
ghost use Rattle.kcp_loopback.specs.Refusals.{refuses_list};

use http_client::statuses::{FIRST_SERVER_ERROR, GONE, OK, TOO_MANY_REQUESTS};
use object_keys::PerKind;
use spec_api::kinds::Kind;
use std::sync::atomic::{AtomicU64, Ordering};

/// What stands for a kind of which no list is refused.
const NONE: u64 = 0;

/// Returns whether a status code refuses a list: it is none of success, of what is gone, of what is asked for too often, or of a failure.
pub(crate) fn refuses_list(code: u16) -> bool
    ensures { result ≡ refuses_list code }
{
    code < FIRST_SERVER_ERROR && code != OK && code != GONE && code != TOO_MANY_REQUESTS
}

/// The status code by which a list of each kind was refused last, until one is answered, and which was said last, until it was said that none is.
#[derive(Drop)]
pub(crate) struct Refusals {
    codes: PerKind<AtomicU64>,
    said: AtomicU64,
}

impl Refusals {
    /// Returns that no list is refused.
    pub(crate) const fn new() -> Refusals {
        Refusals {
            codes: PerKind {
                config_maps: AtomicU64::new(NONE),
                pods: AtomicU64::new(NONE),
                replica_sets: AtomicU64::new(NONE),
                deployments: AtomicU64::new(NONE),
            },
            said: AtomicU64::new(NONE),
        }
    }

    /// Returns whether it was said that lists are refused, and not that none is any more.
    pub(crate) fn is_said(&self) -> bool {
        self.said.load(Ordering::SeqCst) != NONE
    }

    /// Notes that a list of a kind is refused, and returns whether that is to be said: nothing of it is, or else this code is not, and the last list
    /// of the kind was not refused so.
    pub(crate) fn note_refused(&self, kind: Kind, code: u16) -> bool {
        let code = u64::from(code);
        let is_other = self.codes.get(kind).swap(code, Ordering::SeqCst) != code;
        (is_other || !self.is_said()) && self.said.swap(code, Ordering::SeqCst) != code
    }

    /// Returns whether no list of any kind is refused.
    fn is_none(&self) -> bool {
        Kind::ALL.iter().all(|kind| self.codes.get(*kind).load(Ordering::SeqCst) == NONE)
    }

    /// Notes that a list of a kind is answered, and returns whether it is to be said that none is refused any more.
    pub(crate) fn note_listed(&self, kind: Kind) -> bool {
        self.codes.get(kind).store(NONE, Ordering::SeqCst);
        self.is_none() && self.said.swap(NONE, Ordering::SeqCst) != NONE
    }
}

//! Which writes a server denies.
ghost use Rattle.std.specs.Prelude.{◌≡◌};
ghost use Rattle.kcp_loopback.specs.Denials.{denies, needed_again};

use crate::errand::{Deed, Errand};
use http_client::statuses::{BAD_REQUEST, CONFLICT, FIRST_SERVER_ERROR, GONE, NOT_FOUND};
use object_keys::PerKind;
use std::sync::atomic::{AtomicU64, Ordering};

/// What stands for a write that is not denied.
const NONE: u64 = 0;

/// After how many writes that are taken a denial is over at most.
const MOST: u64 = 1024;

/// Returns whether a status code denies a write, as for want of a right or by a quota: it is a client error, and says neither that the object is gone
/// nor that it is not as it was looked at.
pub(crate) fn denies(code: u16) -> bool
    ensures { result ≡ denies code }
{
    BAD_REQUEST <= code
        && code < FIRST_SERVER_ERROR
        && code != NOT_FOUND
        && code != CONFLICT
        && code != GONE
}

/// Returns after how many writes that are taken a denial is over that comes again, where it was after so many before.
fn needed_again(needed: u64) -> u64
    ensures { result ≡ needed_again needed }
{
    if needed < MOST {
        (needed + needed).min(MOST)
    } else {
        MOST
    }
}

/// The status code by which a sort of writes was denied last, until that is over: with the first that is taken, and each further time after twice as
/// many in a row. So where a quota lets some through it is not said anew by each turn of denied and taken ones.
#[derive(Drop)]
struct Denial {
    code: AtomicU64,
    /// How many in a row were taken since.
    taken: AtomicU64,
    /// After how many it is over.
    needed: AtomicU64,
}

impl Denial {
    /// Returns that it is not denied.
    const fn new() -> Denial {
        Denial {
            code: AtomicU64::new(NONE),
            taken: AtomicU64::new(0),
            needed: AtomicU64::new(1),
        }
    }

    /// Notes that it is denied with a code, and returns whether that is to be said: it was not, or by another code.
    fn note_denied(&self, code: u16) -> bool {
        let code = u64::from(code);
        self.taken.store(0, Ordering::SeqCst);
        self.code.swap(code, Ordering::SeqCst) != code
    }

    /// Notes that it is taken, and returns whether it is to be said that it is denied no longer.
    fn note_taken(&self) -> bool {
        let before = self.taken.fetch_add(1, Ordering::SeqCst);
        let needed = self.needed.load(Ordering::SeqCst);
        let is_over = needed <= before.saturating_add(1)
            && self.code.swap(NONE, Ordering::SeqCst) != NONE;
        if is_over {
            self.needed.store(needed_again(needed), Ordering::SeqCst);
        }
        is_over
    }
}

/// Which writes of a kind of objects a server denies.
#[derive(Drop)]
struct Denied {
    create: Denial,
    update: Denial,
    update_status: Denial,
    patch: Denial,
    delete: Denial,
}

impl Denied {
    /// Returns that none is denied.
    const fn new() -> Denied {
        Denied {
            create: Denial::new(),
            update: Denial::new(),
            update_status: Denial::new(),
            patch: Denial::new(),
            delete: Denial::new(),
        }
    }

    /// Returns what stands for a deed, if it is a write.
    fn at(&self, deed: Deed) -> Option<&Denial> {
        match deed {
            Deed::Follow | Deed::Get => None,
            Deed::Create => Some(&self.create),
            Deed::Update => Some(&self.update),
            Deed::UpdateStatus => Some(&self.update_status),
            Deed::Patch => Some(&self.patch),
            Deed::Delete => Some(&self.delete),
        }
    }
}

/// Which writes a server denies, each sort of them by itself: where a quota denies creates of pods, all else is taken as ever.
#[derive(Drop)]
pub(crate) struct Denials {
    denied: PerKind<Denied>,
}

impl Denials {
    /// Returns that none is denied.
    pub(crate) const fn new() -> Denials {
        Denials {
            denied: PerKind {
                config_maps: Denied::new(),
                pods: Denied::new(),
                replica_sets: Denied::new(),
                deployments: Denied::new(),
            },
        }
    }

    /// Returns what stands for an errand, if it is a write.
    fn at(&self, errand: Errand) -> Option<&Denial> {
        self.denied.get(errand.kind).at(errand.deed)
    }

    /// Notes that a write is denied with a code, and returns whether that is to be said.
    pub(crate) fn note_denied(&self, errand: Errand, code: u16) -> bool {
        match self.at(errand) {
            Some(denial) => denial.note_denied(code),
            None => false,
        }
    }

    /// Notes that a write is taken, and returns whether it is to be said that it is denied no longer.
    pub(crate) fn note_taken(&self, errand: Errand) -> bool {
        match self.at(errand) {
            Some(denial) => denial.note_taken(),
            None => false,
        }
    }
}

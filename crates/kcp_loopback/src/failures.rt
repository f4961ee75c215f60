//! What a server fails at.
use crate::errand::{Deed, Errand};
use crate::spell::Spell;
use object_keys::PerKind;
use spec_api::kinds::Kind;
use std::sync::atomic::{AtomicU64, Ordering};

/// What a server fails at with one kind of objects: 1 for each deed at which it did when it was asked that last.
#[derive(Drop)]
struct Failing {
    follow: AtomicU64,
    get: AtomicU64,
    create: AtomicU64,
    update: AtomicU64,
    update_status: AtomicU64,
    patch: AtomicU64,
    delete: AtomicU64,
}

impl Failing {
    /// Returns that it fails at nothing.
    const fn new() -> Failing {
        Failing {
            follow: AtomicU64::new(0),
            get: AtomicU64::new(0),
            create: AtomicU64::new(0),
            update: AtomicU64::new(0),
            update_status: AtomicU64::new(0),
            patch: AtomicU64::new(0),
            delete: AtomicU64::new(0),
        }
    }

    /// Returns what stands for a deed.
    fn at(&self, deed: Deed) -> &AtomicU64 {
        match deed {
            Deed::Follow => &self.follow,
            Deed::Get => &self.get,
            Deed::Create => &self.create,
            Deed::Update => &self.update,
            Deed::UpdateStatus => &self.update_status,
            Deed::Patch => &self.patch,
            Deed::Delete => &self.delete,
        }
    }

    /// Returns whether it fails at a deed.
    fn is_at(&self, deed: Deed) -> bool {
        self.at(deed).load(Ordering::SeqCst) != 0
    }

    /// Returns whether it fails at some deed.
    fn is_any(&self) -> bool {
        self.is_at(Deed::Follow)
            || self.is_at(Deed::Get)
            || self.is_at(Deed::Create)
            || self.is_at(Deed::Update)
            || self.is_at(Deed::UpdateStatus)
            || self.is_at(Deed::Patch)
            || self.is_at(Deed::Delete)
    }
}

/// What a server fails at: where its creates fail, as by an admission webhook that does not answer, all else is answered as ever between two tries
/// of them, and that does not say that they no longer do.
#[derive(Drop)]
pub(crate) struct Failures {
    failing: PerKind<Failing>,
    pub(crate) spell: Spell,
}

impl Failures {
    /// Returns that it fails at nothing.
    pub(crate) const fn new() -> Failures {
        Failures {
            failing: PerKind {
                config_maps: Failing::new(),
                pods: Failing::new(),
                replica_sets: Failing::new(),
                deployments: Failing::new(),
            },
            spell: Spell::new(),
        }
    }

    /// Returns what stands for an errand.
    fn at(&self, errand: Errand) -> &AtomicU64 {
        self.failing.get(errand.kind).at(errand.deed)
    }

    /// Returns whether it fails at something.
    fn is_any(&self) -> bool {
        Kind::ALL
            .iter()
            .any(|kind| self.failing.get(*kind).is_any())
    }

    /// Notes that it failed at an errand, and returns whether that is to be said.
    pub(crate) fn note_failed(&self, errand: Errand) -> bool {
        self.at(errand).store(1, Ordering::SeqCst);
        self.spell.note_there()
    }

    /// Notes that it did not fail at an errand, and returns whether it is to be said that it fails no longer.
    pub(crate) fn note_answered(&self, errand: Errand) -> bool {
        self.at(errand).store(0, Ordering::SeqCst);
        self.spell.note_without(self.is_any())
    }
}

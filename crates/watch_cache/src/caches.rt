//! The caches of all kinds.
use crate::cache::Cache;
use crate::changes::Change;
use spec_api::kinds::Kind;
use std::alloc::{AllocError, Global};
use std::marker::Model;

/// The last changes of each kind.
#[derive(Drop)]
pub struct Caches {
    /// One for each kind, in the order of kinds.
    caches: Vec<Cache>,
}

impl Model for Caches {
    ghost use Rattle.std.specs.Prelude.{◌≡◌, length};
    ghost use Rattle.spec_api.specs.declared.kinds.Kind as kind;
    ghost use Rattle.spec_api.specs.Kinds.{kinds};
    ghost use Rattle.spec_server.specs.Codes.{coded_windows, window_at};
    ghost use Rattle.spec_server.specs.Recorded.{Window};

    ghost Value = { kind.Kind → Window };

    ghost coded = { coded_windows };

    ghost view = { λ s. window_at s.caches.items };

    ghost invariant = { λ s. length s.caches.items ≡ length kinds };
}

impl Caches {
    ghost use Rattle.std.specs.Prelude.{◌≡◌, ◌≤◌, ◌<◌, ◌==◌, IfOk, if◌then◌else◌};
    ghost use Rattle.spec_api.specs.Kinds.{rank};
    ghost use Rattle.spec_api.specs.Windows.{last_revision};
    ghost use Rattle.spec_server.specs.Recorded.{opened, recorded, compacted_to};
    ghost use Rattle.watch_cache.specs.Changes.{change_seen};

    /// Returns caches that record the last `window` changes of each kind and have none so far. The error is out of memory.
    pub fn new(alloc: Global, window: usize) -> Result<Caches, AllocError>
        ensures { IfOk result (λ c. c ≡ (λ k. opened k window)) }
    {
        let mut caches = Vec::with_capacity(alloc, Kind::ALL.len())?;
        for kind in Kind::ALL {
            caches.push(Cache::new(alloc, kind, window)?)?;
        }
        Ok(Caches { caches })
    }

    /// Returns the cache of a kind.
    pub fn get(&self, kind: Kind) -> &Cache
        ensures { result.now ≡ self.now kind }
    {
        &self.caches[kind.rank()]
    }

    /// Adds the next change to the cache of its kind. It takes no memory.
    pub fn record(&mut self, change: Change)
        requires { last_revision 0 (self.old change.key.kind).kept < change.revision }
        ensures { self.new ≡ (λ k. if rank k == rank change.key.kind
            then recorded (self.old change.key.kind) (change_seen change) else self.old k) }
    {
        let place = change.key.kind.rank();
        self.caches[place].record(change);
    }

    /// Raises the floor of each kind to a revision, if it is lower. It takes no memory.
    pub fn compact(&mut self, revision: u64)
        ensures { self.new ≡ (λ k. compacted_to (self.old k) revision) }
    {
        for place in 0..self.caches.len() {
            self.caches[place].compact(revision);
        }
    }
}

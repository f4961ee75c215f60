//! What a server holds: what is there, and the last changes of each kind.
use meta::{Member, StoredObject};
use object_keys::Key;
use selector::View;
use spec_api::kinds::Kind;
use std::alloc::{AllocError, Global};
use std::marker::Model;
use store::Store;
use watch_cache::{Cache, Caches, Change};

/// What is there, with one revision over all kinds, and the last changes of each kind, from which watches and lists of
/// earlier revisions are served. A change that is no longer recorded is answered as expired.
pub struct Server {
    pub(crate) store: Store,
    pub(crate) caches: Caches,
}

impl Drop for Server {
    // Called where one is dropped; a derived drop is proved anew at each such place.
    fn drop(self) {
        let Server {
            store: _store,
            caches: _caches,
        } = self;
    }
}

impl Model for Server {
    ghost use Rattle.spec_server.specs.Servers as servers;
    ghost use Rattle.spec_server.specs.Codes.{coded_server};
    ghost use Rattle.server.specs.Standing.{IsStanding};

    ghost Value = { servers.Server };

    ghost coded = { coded_server };

    ghost view = { λ s. record { snapshot = s.store; windows = s.caches } };

    ghost invariant = { λ s. IsStanding (record { snapshot = s.store; windows = s.caches }) };
}

impl Server {
    ghost use Rattle.std.specs.Prelude.{◌≡◌, ◌≤◌, ◌<◌, IfOk, map, option_map};
    ghost use Rattle.std.specs.List.Sorted.{IsStrictlySortedBy};
    ghost use Rattle.std.specs.Map.{keys_of};
    ghost use Rattle.spec_api.specs.History.{found, viewed};
    ghost use Rattle.spec_api.specs.Keys.{key_cmp};
    ghost use Rattle.object_keys.specs.Keys.{key_of};
    ghost use Rattle.spec_api.specs.Revisions.{greatest_revision};
    ghost use Rattle.spec_server.specs.Servers.{opened_server, window_of, with_window};
    ghost use Rattle.spec_api.specs.Windows.{last_revision};
    ghost use Rattle.spec_server.specs.Recorded.{recorded};
    ghost use Rattle.meta.specs.Members.{member_of};
    ghost use Rattle.selector.specs.Views.{view_of};
    ghost use Rattle.watch_cache.specs.Changes.{change_seen};

    /// Returns a server at revision 1, where nothing is there, that records the last `window` changes of each kind. The error
    /// is running out of memory.
    pub fn new(alloc: Global, window: usize) -> Result<Server, AllocError>
        ensures { IfOk result (λ s. s ≡ opened_server window) }
    {
        Ok(Server {
            store: Store::new(alloc),
            caches: Caches::new(alloc, window)?,
        })
    }

    /// Returns the present revision. It takes no memory.
    pub fn revision(&self) -> u64
        ensures value { result ≡ self.now.snapshot.revision }
        ensures bound { result ≤ greatest_revision }
    {
        self.store.revision()
    }

    /// Returns the object under a key, if there is one. It takes no memory.
    pub fn get(&self, key: &Key) -> Option<&StoredObject>
        ensures { option_map (λ o. o.now.value) result ≡ found (key_of key.now) self.now.snapshot.members }
    {
        self.store.get(key)
    }

    /// Returns what is there of a view, in the order of keys: what a watch begins with that has seen nothing yet. The error is
    /// running out of memory.
    pub fn added<'a>(&'a self, alloc: Global, view: &View) -> Result<Vec<Member<'a>>, AllocError>
        ensures members { IfOk result (λ found. map member_of found.items
            ≡ viewed (view_of view.entry.now) self.entry.now.snapshot.members) }
        ensures in_order { IsStrictlySortedBy key_cmp (keys_of self.entry.now.snapshot.members) }
    {
        self.store.list(alloc, view)
    }

    /// Returns the changes of a kind.
    pub(crate) fn cache(&self, kind: Kind) -> &Cache
        ensures { result.now ≡ window_of kind self.now }
    {
        self.caches.get(kind)
    }

    /// Adds the change of the present revision to the cache of its kind. It takes no memory.
    pub(crate) fn record(&mut self, change: Change)
        requires next { last_revision 0 (window_of change.key.kind self.old).kept < change.revision }
        requires present { change.revision ≤ self.old.snapshot.revision }
        ensures { self.new ≡ with_window change.key.kind (recorded (window_of change.key.kind self.old) (change_seen change)) self.old }
    {
        self.caches.record(change);
    }
}

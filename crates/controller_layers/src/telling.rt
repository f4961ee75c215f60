//! A controller whose failures are told.
use crate::key_notes::{KeyNote, note_of};
use api_client::Api;
use api_notes::Notes;
use indexer::{Indexed, Shift};
use keyed_board::{Failure, Outcome};
use keyed_queues::Named;
use object_keys::PerKind;
use reconciler::{Printable, Reconciler};
use std::alloc::{AllocError, Global};
use std::collections::BTreeMap;
use std::sync::{Mutex, Wait};

/// A controller, and who is told of each key why its reconcile fails: once, and not for every retry, until the key is fine again or fails for another
/// cause; and then that it is fine. Nothing is told of conflicts (409), nor of a key for whose text there is no memory: it is told after the next.
#[derive(Drop)]
pub struct Telling<'a, R, C, N, K: Named> {
    rt: &'a R,
    controller: &'a C,
    notes: &'a N,
    /// Of which keys a failure was told that is not over.
    told: Mutex<BTreeMap<K, Failure>>,
}

impl<'a, R: Wait, C, N: Notes, K: Named + Printable> Telling<'a, R, C, N, K> {
    /// Returns a controller of which nothing was told yet.
    pub fn new(
        rt: &'a R,
        alloc: Global,
        controller: &'a C,
        notes: &'a N,
    ) -> Telling<'a, R, C, N, K> {
        Telling {
            rt,
            controller,
            notes,
            told: Mutex::new(BTreeMap::new(alloc)),
        }
    }

    /// Returns the failure that was told last of a key and is not over.
    fn told(&self, key: &K) -> Option<Failure> {
        self.told.lock(self.rt).get(key).copied()
    }

    /// Notes that a failure of a key is told. The error is running out of memory.
    fn keep(&self, key: &K, failure: Failure) -> Result<(), AllocError> {
        let kept = key.try_copy()?;
        self.told.lock(self.rt).insert(kept, failure)?;
        Ok(())
    }

    /// Notes that no failure of a key is told.
    fn forget(&self, key: &K) {
        self.told.lock(self.rt).remove(key);
    }

    /// Tells how a reconcile of a key ended, where that is to be told. No other thread has the key meanwhile. The error is running out of memory: nothing is told.
    fn tell(&self, alloc: Global, key: &K, outcome: Outcome) -> Result<(), AllocError> {
        match note_of(self.told(key), outcome) {
            KeyNote::Nothing => {}
            KeyNote::Fails(failure) => {
                let text = key.printed(alloc)?;
                self.keep(key, failure)?;
                self.notes.failed(text.as_str(), failure);
            }
            KeyNote::IsFine => {
                let text = key.printed(alloc)?;
                self.forget(key);
                self.notes.recovered(text.as_str());
            }
        }
        Ok(())
    }
}

impl<R: Wait, K: Named + Printable, C: Reconciler<K>, N: Notes> Reconciler<K>
    for Telling<'_, R, C, N, K> {
    ghost owes = { C.owes };

    ghost ends = { C.ends };

    ghost says_acts = { C.says_acts };

    ghost acts = { C.acts };

    fn keys_of(
        &self,
        alloc: Global,
        change: &Shift,
        shown: &PerKind<Indexed>,
    ) -> Result<Vec<K>, AllocError> {
        self.controller.keys_of(alloc, change, shown)
    }

    /// Reconciles a key, and tells how that ended, where that is to be told.
    fn reconcile<A: Api>(
        &self,
        alloc: Global,
        key: &K,
        shown: &PerKind<Indexed>,
        api: &mut A,
    ) -> Outcome {
        let outcome = self.controller.reconcile(alloc, key, shown, api);
        let _ = self.tell(alloc, key, outcome);
        outcome
    }
}

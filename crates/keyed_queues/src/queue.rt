//! A work queue of keys of any type.
use crate::named::Named;
use std::alloc::{AllocError, Global};
use std::collections::{BTreeSet, VecDeque};
use std::marker::Model;

/// The keys that wait, first come first; those that are to be processed; those in workers' hands.
/// The list has room for each key in a worker's hands, so that `done` can put it back.
pub struct KeyedQueue<K: Named> {
    ready: VecDeque<K>,
    dirty: BTreeSet<K>,
    processing: BTreeSet<K>,
    is_shut: bool,
    alloc: Global,
}

impl<K: Named> Drop for KeyedQueue<K> {
    // Called where one is dropped; a derived drop is proved anew at each such place.
    fn drop(self) {
        let KeyedQueue {
            ready: _ready,
            dirty: _dirty,
            processing: _processing,
            is_shut: _is_shut,
            alloc: _alloc,
        } = self;
    }
}

impl<K: Named> Model for KeyedQueue<K> {
    ghost use Rattle.std.specs.Prelude.{◌+◌, ◌≤◌, length};
    ghost use Rattle.std.specs.VecDeque.{deque_len, deque_capacity};
    ghost use Rattle.keyed_queues.specs.Lists.{Lists, coded_lists};

    ghost Value = { Lists K };

    ghost coded = { coded_lists K.code };

    ghost view = { λ q. record {
      ready = q.ready.items;
      dirty = q.dirty.keys;
      processing = q.processing.keys;
      is_shut = q.is_shut;
    } };

    ghost invariant = { λ q. deque_len q.ready + length q.processing.keys ≤ deque_capacity q.ready };
}

impl<K: Named> KeyedQueue<K> {
    ghost use Rattle.std.specs.Prelude.{◌≡◌, IfOk, OnOk, OnErr, length, map, option_map, ◌+◌, ◌<◌, ◌≤◌, ◌∷◌, ◌++◌, [], Some, IsSome};
    ghost use Rattle.std.specs.VecDeque.{deque_len, deque_capacity};
    ghost use Rattle.keyed_queues.specs.Queues.{KeyQueue, idle, added, added_all, got, handed, done, shut};
    ghost use Rattle.keyed_queues.specs.Lists.{said};
    ghost use Rattle.keyed_queues.specs.Undoing.{IsFresh, IsUndoable};

    /// Returns an empty queue.
    pub fn new(alloc: Global) -> KeyedQueue<K>
        ensures { said K.order K.says result ≡ idle }
    {
        KeyedQueue {
            ready: VecDeque::new(alloc),
            dirty: BTreeSet::new(alloc),
            processing: BTreeSet::new(alloc),
            is_shut: false,
            alloc,
        }
    }

    /// Adds a key: it waits once, however often it is added, and a key in a worker's hands waits for its `done`.
    pub fn add(&mut self, key: K) -> Result<(), AllocError>
        ensures ok { OnOk result (said K.order K.says self.new ≡ added (K.says key) (said K.order K.says self.old)) }
        ensures err { OnErr result (self.new ≡ self.old) }
    {
        if self.is_shut || self.dirty.contains(&key) {
            return Ok(());
        }
        if self.processing.contains(&key) {
            self.dirty.insert(key)?;
            return Ok(());
        }
        self.ready.reserve(self.processing.len() + 1)?;
        let waiting = key.try_copy()?;
        self.dirty.insert(key)?;
        self.ready.push_back_reserved(waiting);
        Ok(())
    }

    /// Adds keys one after another, as `add` does. The error is running out of memory, and then none was added.
    pub fn add_all(&mut self, keys: &[K]) -> Result<(), AllocError>
        ensures ok { OnOk result (said K.order K.says self.new ≡ added_all (map K.says keys.now) (said K.order K.says self.old)) }
        ensures err { OnErr result (said K.order K.says self.new ≡ said K.order K.says self.old) }
    {
        let mut fresh = Vec::with_capacity(self.alloc, keys.len())?;
        for key in keys {
            if let Err(refused) = self.add_fresh(key, &mut fresh) {
                self.take_back(fresh);
                return Err(refused);
            }
        }
        Ok(())
    }

    /// Adds a key as `add` does, and notes it where it was not to be processed before. The error is running out of memory, and then
    /// nothing has changed.
    fn add_fresh(&mut self, key: &K, fresh: &mut Vec<K>) -> Result<(), AllocError>
        ensures ok { OnOk result (said K.order K.says self.new ≡ added (K.says key.now) (said K.order K.says self.old)) }
        ensures fresh { OnOk result ((first : KeyQueue K.order) → IsUndoable first (map K.says fresh.old.items) (said K.order K.says self.old)
            → IsUndoable first (map K.says fresh.new.items) (said K.order K.says self.new)) }
        ensures err { OnErr result (self.new ≡ self.old) }
        ensures noted { OnErr result (fresh.new.items ≡ fresh.old.items) }
    {
        if self.is_shut || self.dirty.contains(key) {
            return Ok(());
        }
        let noted = key.try_copy()?;
        fresh.reserve(1)?;
        self.add(key.try_copy()?)?;
        fresh.push_reserved(noted);
        Ok(())
    }

    /// Takes back keys that were added and noted, the last first.
    fn take_back(&mut self, fresh: Vec<K>)
        ensures { (first : KeyQueue K.order) → IsUndoable first (map K.says fresh.items) (said K.order K.says self.old)
            → said K.order K.says self.new ≡ first }
    {
        let mut fresh = fresh;
        while let Some(key) = fresh.pop() {
            self.undo_add(&key);
        }
    }

    /// Takes back a key that was added last and was not to be processed before.
    fn undo_add(&mut self, key: &K)
        ensures { (before : KeyQueue K.order) → IsFresh (K.says key.now) before
            → said K.order K.says self.old ≡ added (K.says key.now) before → said K.order K.says self.new ≡ before }
    {
        self.dirty.remove(key);
        if !self.processing.contains(key) {
            let others = self.len().saturating_sub(1);
            self.ready.truncate(others);
        }
    }

    /// Returns the key that waits longest, if one waits. It takes no memory.
    pub fn first(&self) -> Option<&K>
        ensures { option_map (λ k. K.says k.now) result ≡ handed (said K.order K.says self.now) }
    {
        self.ready.front()
    }

    /// Removes the key that waits longest, if one waits, and hands it to a worker.
    pub fn get(&mut self) -> Result<Option<K>, AllocError>
        ensures ok { OnOk result (said K.order K.says self.new ≡ got (said K.order K.says self.old)) }
        ensures handed { IfOk result (λ k. option_map K.says k ≡ handed (said K.order K.says self.old)) }
        ensures err { OnErr result (self.new ≡ self.old) }
    {
        let Some(front) = self.ready.front() else {
            return Ok(None);
        };
        let key = front.try_copy()?;
        let kept = front.try_copy()?;
        self.processing.insert(kept)?;
        self.dirty.remove(&key);
        drop(self.ready.pop_front());
        Ok(Some(key))
    }

    /// Takes a key back from its worker. It waits again if it was added meanwhile.
    pub fn done(&mut self, key: &K)
        ensures { said K.order K.says self.new ≡ done (K.says key.now) (said K.order K.says self.old) }
    {
        let Some(kept) = self.processing.take(key) else {
            return;
        };
        if self.dirty.contains(key) {
            self.ready.push_back_reserved(kept);
        }
    }

    /// Shuts the queue: from now on nothing is added; what waits is still handed out.
    pub fn shut_down(&mut self)
        ensures { said K.order K.says self.new ≡ shut (said K.order K.says self.old) }
    {
        self.is_shut = true;
    }

    /// Returns how many keys wait.
    pub fn len(&self) -> usize
        ensures { result ≡ length self.now.ready }
    {
        self.ready.len()
    }
}

//! A map in key order.
use crate::alone::{put_into, remove_from};
use crate::chunks::{chunk_of, put_chunk};
use crate::cutting::{from, until};
use crate::entries::{place_in, with_entry, without_entry};
use crate::left::EntriesLeft;
use crate::ranges::{append_chunks, append_chunks_between};
use std::alloc::{AllocError, Global};
use std::marker::Model;
use std::sync::Arc;

/// Values under keys, in the order of the keys. A copy shares the entries with what it was copied from. It is seen as its
/// entries.
#[derive(Drop)]
pub struct SharedMap<K: Ord, V> {
    chunks: Vec<Arc<Vec<Arc<(K, V), Global>>, Global>>,
    len: usize,
    alloc: Global,
}

impl<K: Ord, V> Model for SharedMap<K, V> {
    ghost use Rattle.std.specs.Prelude.{List};
    ghost use Rattle.std.specs.Coded.{coded_list, coded×};
    ghost use Rattle.shared_map.specs.Parts.{parts, joined, IsSound};

    ghost Value = { List (K × V) };

    ghost coded = { coded_list (coded× K.code V.code) };

    ghost view = { λ m. joined (parts m.chunks.items) };

    ghost invariant = { λ m. IsSound K.cmp (parts m.chunks.items) m.len };
}

impl<K: Ord + Drop, V: Drop> SharedMap<K, V> {
    ghost use Rattle.std.specs.Arc.{arc_value};
    ghost use Rattle.std.specs.Prelude.{◌≡◌, [], true, false, IfOk, OnOk, OnErr, length, map};
    ghost use Rattle.std.specs.declared.ops.Bound.TheVariants.{Included, Excluded};
    ghost use Rattle.std.specs.BTreeMap.Range.{entries_between};
    ghost use Rattle.std.specs.Option.{option_copied};
    ghost use Rattle.std.specs.List.Sorted.{IsStrictlySortedBy};
    ghost use Rattle.std.specs.Map.{keys_of, lookup, remove_entry};
    ghost use Rattle.std.specs.BTreeMap.{is_at};
    ghost use Rattle.shared_map.specs.Entries.{put_entry, end_before};

    /// Returns a map without entries.
    pub fn new(alloc: Global) -> SharedMap<K, V>
        ensures { result ≡ [] }
    {
        SharedMap {
            chunks: Vec::new(alloc),
            len: 0,
            alloc,
        }
    }

    /// Returns how many entries there are.
    pub fn len(&self) -> usize
        ensures len { result ≡ length self.now }
        ensures ordered { IsStrictlySortedBy K.cmp (keys_of self.now) }
    {
        self.len
    }

    /// Returns a copy, which shares the entries. It costs a count for each chunk of entries. The error is running out of memory.
    pub fn try_copy(&self) -> Result<SharedMap<K, V>, AllocError>
        ensures { IfOk result (λ m. m ≡ self.now) }
    {
        let mut chunks = Vec::with_capacity(self.alloc, self.chunks.len())?;
        for chunk in &self.chunks {
            chunks.push(Arc::try_clone(chunk)?)?;
        }
        Ok(SharedMap {
            chunks,
            len: self.len,
            alloc: self.alloc,
        })
    }

    /// Puts a value under a key, in the place of what is there. The error is running out of memory, and changes nothing.
    pub fn insert(&mut self, key: K, value: V) -> Result<(), AllocError>
        ensures ok { OnOk result (self.new ≡ put_entry K.cmp self.old (key, value)) }
        ensures err { OnErr result (self.new ≡ self.old) }
        ensures ordered { IsStrictlySortedBy K.cmp (keys_of self.old) }
    {
        let entry = Arc::new(self.alloc, (key, value))?;
        if self.put_alone(&entry)? {
            return Ok(());
        }
        self.put_copied(entry)
    }

    /// Puts an entry into its chunk, where nobody shares it and it has room, and returns whether it did.
    fn put_alone(&mut self, entry: &Arc<(K, V), Global>) -> Result<bool, AllocError>
        ensures put { IfOk result (λ done. done ≡ true → self.new ≡ put_entry K.cmp self.old (arc_value entry.now)) }
        ensures left { IfOk result (λ done. done ≡ false → self.new ≡ self.old) }
        ensures err { OnErr result (self.new ≡ self.old) }
    {
        if self.chunks.is_empty() {
            return Ok(false);
        }
        let Some(most) = self.len.checked_add(1) else {
            return Ok(false);
        };
        let at = chunk_of(self.chunks.as_slice(), &entry.0);
        let Some(more) = put_into(&mut self.chunks, at, entry)? else {
            return Ok(false);
        };
        if more {
            self.len = most;
        }
        Ok(true)
    }

    /// Puts an entry into a copy of its chunk, which then stands in its place.
    fn put_copied(&mut self, entry: Arc<(K, V), Global>) -> Result<(), AllocError>
        ensures ok { OnOk result (self.new ≡ put_entry K.cmp self.old (arc_value entry)) }
        ensures err { OnErr result (self.new ≡ self.old) }
    {
        if self.chunks.is_empty() {
            let mut made = Vec::new(self.alloc);
            made.push(entry)?;
            self.chunks.push(Arc::new(self.alloc, made)?)?;
            self.len = 1;
            return Ok(());
        }
        let at = chunk_of(self.chunks.as_slice(), &entry.0);
        let chunk = self.chunks[at].as_slice();
        let others = self.len - chunk.len();
        let made = with_entry(self.alloc, chunk, entry)?;
        let Some(len) = others.checked_add(made.len()) else {
            return Err(AllocError);
        };
        put_chunk(self.alloc, &mut self.chunks, at, made)?;
        self.len = len;
        Ok(())
    }

    /// Removes what is under a key, if there is anything. The error is running out of memory, and changes nothing.
    pub fn remove(&mut self, key: &K) -> Result<(), AllocError>
        ensures ok { OnOk result (self.new ≡ remove_entry (is_at (K.cmp key.now)) self.old) }
        ensures err { OnErr result (self.new ≡ self.old) }
        ensures ordered { IsStrictlySortedBy K.cmp (keys_of self.old) }
    {
        let _ = &self.chunks;
        if self.remove_alone(key) {
            return Ok(());
        }
        self.remove_copied(key)
    }

    /// Removes what is under a key from its chunk, where nobody shares it and it has others, and returns whether it did.
    fn remove_alone(&mut self, key: &K) -> bool
        ensures removed { result ≡ true → self.new ≡ remove_entry (is_at (K.cmp key.now)) self.old }
        ensures left { result ≡ false → self.new ≡ self.old }
    {
        if self.chunks.is_empty() {
            return false;
        }
        let at = chunk_of(self.chunks.as_slice(), key);
        let place = place_in(self.chunks[at].as_slice(), key);
        if !place.found || !remove_from(&mut self.chunks, at, place.at) {
            return false;
        }
        self.len -= 1;
        true
    }

    /// Removes what is under a key from a copy of its chunk, which then stands in its place.
    fn remove_copied(&mut self, key: &K) -> Result<(), AllocError>
        ensures ok { OnOk result (self.new ≡ remove_entry (is_at (K.cmp key.now)) self.old) }
        ensures err { OnErr result (self.new ≡ self.old) }
        ensures ordered { IsStrictlySortedBy K.cmp (keys_of self.old) }
    {
        if self.chunks.is_empty() {
            return Ok(());
        }
        let at = chunk_of(self.chunks.as_slice(), key);
        let chunk = self.chunks[at].as_slice();
        let place = place_in(chunk, key);
        if !place.found {
            return Ok(());
        }
        let made = without_entry(self.alloc, chunk, place.at)?;
        put_chunk(self.alloc, &mut self.chunks, at, made)?;
        self.len -= 1;
        Ok(())
    }

    /// Returns the value under a key. It takes no memory.
    pub fn get(&self, key: &K) -> Option<&V>
        ensures { option_copied result ≡ lookup (is_at (K.cmp key.now)) self.now }
    {
        if self.chunks.is_empty() {
            return None;
        }
        let chunk = self.chunks[chunk_of(self.chunks.as_slice(), key)].as_slice();
        let place = place_in(chunk, key);
        if place.found {
            Some(&chunk[place.at].1)
        } else {
            None
        }
    }

    /// Returns the entries from a key on, or from there to before another, to be taken one after another. It costs the way to both keys, and
    /// takes no memory.
    pub fn range(&self, first: &K, past: Option<&K>) -> EntriesLeft<'_, K, V>
        ensures span { result ≡ entries_between K.cmp (Included first.now) (end_before past.entry) self.now }
        ensures ordered { IsStrictlySortedBy K.cmp (keys_of self.now) }
    {
        if self.len() == 0 {
            return EntriesLeft::of(&[], &[], &[]);
        }
        let (front, rest) = from(self.chunks.as_slice(), first);
        match past {
            None => EntriesLeft::of(front, rest, front.split_at(0).0),
            Some(past) => until(front, rest, past),
        }
    }

    /// Returns the entries, in the order of keys. The error is running out of memory.
    pub fn all(&self, alloc: Global) -> Result<Vec<&(K, V)>, AllocError>
        ensures { IfOk result (λ v. map (λ e. e.now) v.items ≡ self.now) }
    {
        let mut found = Vec::with_capacity(alloc, self.len)?;
        append_chunks(&mut found, self.chunks.as_slice())?;
        Ok(found)
    }

    /// Returns the entries from a key to before another, in the order of keys. It costs what it returns, and the way to the first.
    /// The error is running out of memory.
    pub fn between(&self, alloc: Global, first: &K, past: &K) -> Result<Vec<&(K, V)>, AllocError>
        ensures span { IfOk result (λ v. map (λ e. e.now) v.items ≡ entries_between K.cmp (Included first.now) (Excluded past.now) self.now) }
        ensures ordered { IsStrictlySortedBy K.cmp (keys_of self.now) }
    {
        let mut found = Vec::new(alloc);
        if self.chunks.is_empty() {
            return Ok(found);
        }
        let start = chunk_of(self.chunks.as_slice(), first);
        let rest = self.chunks.as_slice().split_at(start).1;
        append_chunks_between(&mut found, rest, first, past)?;
        Ok(found)
    }
}

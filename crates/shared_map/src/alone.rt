//! Changes that are made in a chunk itself, where nobody shares it.
ghost use Rattle.std.specs.Prelude.{◌≡◌, ◌≤◌, ◌<◌, ◌+◌, ◌++◌, ◌∷◌, IfOk, IfSome, IfNone, OnErr, List, length, vec_len, take, drop, cond, true, false};
ghost use Rattle.std.specs.Arc.{arc_value};
ghost use Rattle.std.specs.List.Sorted.{IsStrictlySortedBy};
ghost use Rattle.std.specs.Map.{keys_of};
ghost use Rattle.shared_map.specs.Entries.{put_entry};
ghost use Rattle.shared_map.specs.Parts.{chunk_entries, parts, joined, starts_after, AreFilled};

use crate::chunks::LIMIT;
use crate::entries::{EntryPlace, place_in};
use std::alloc::{AllocError, Global};
use std::sync::Arc;

/// Puts an entry at its place in a chunk that nobody shares: instead of the one there that has its key, or else before it. Returns whether
/// it did: a chunk that is shared is left. The error is running out of memory, and changes nothing.
pub fn put_alone<K: Drop, V: Drop>(
    chunk: &mut Arc<Vec<Arc<(K, V), Global>>, Global>,
    place: EntryPlace,
    entry: &Arc<(K, V), Global>,
) -> Result<bool, AllocError>
    requires { place.at + cond place.found 1 0 ≤ length (chunk_entries chunk.old) }
    ensures put { IfOk result (λ done. done ≡ true → chunk_entries chunk.new
        ≡ take place.at (chunk_entries chunk.old) ++ (arc_value entry.now ∷ drop (place.at + cond place.found 1 0) (chunk_entries chunk.old))) }
    ensures left { IfOk result (λ done. done ≡ false → chunk_entries chunk.new ≡ chunk_entries chunk.old) }
    ensures err { OnErr result (chunk_entries chunk.new ≡ chunk_entries chunk.old) }
{
    let copy = Arc::try_clone(entry)?;
    let Some(entries) = Arc::get_mut(chunk) else {
        return Ok(false);
    };
    if place.found {
        entries[place.at] = copy;
    } else {
        entries.insert(place.at, copy)?;
    }
    Ok(true)
}

/// Removes the entry at a place of a chunk that nobody shares. Returns whether it did: a chunk that is shared is left.
pub fn remove_alone<K: Drop, V: Drop>(
    chunk: &mut Arc<Vec<Arc<(K, V), Global>>, Global>,
    at: usize,
) -> bool
    requires { at < length (chunk_entries chunk.old) }
    ensures removed { result ≡ true → chunk_entries chunk.new ≡ take at (chunk_entries chunk.old) ++ drop (at + 1) (chunk_entries chunk.old) }
    ensures left { result ≡ false → chunk_entries chunk.new ≡ chunk_entries chunk.old }
{
    let Some(entries) = Arc::get_mut(chunk) else {
        return false;
    };
    let _gone = entries.remove(at);
    true
}

/// Puts an entry under its key into the chunk that may have it, where nobody shares the chunk and it has room. Returns whether there is one
/// entry more, or nothing where the chunk was left. The error is running out of memory, and changes nothing.
pub fn put_into<K: Ord + Drop, V: Drop>(
    chunks: &mut Vec<Arc<Vec<Arc<(K, V), Global>>, Global>>,
    at: usize,
    entry: &Arc<(K, V), Global>,
) -> Result<Option<bool>, AllocError>
    requires within { at < vec_len chunks.old }
    requires ordered { IsStrictlySortedBy K.cmp (keys_of (joined (parts chunks.old.items))) }
    requires filled { AreFilled (parts chunks.old.items) }
    requires first { 0 < at → starts_after K.cmp (arc_value entry.now).0 (drop at (parts chunks.old.items)) ≡ false }
    requires next { starts_after K.cmp (arc_value entry.now).0 (drop (at + 1) (parts chunks.old.items)) ≡ true }
    ensures put { IfOk result (λ put. IfSome put (λ _. joined (parts chunks.new.items) ≡ put_entry K.cmp (joined (parts chunks.old.items)) (arc_value entry.now))) }
    ensures more { IfOk result (λ put. IfSome put (λ more. length (joined (parts chunks.new.items)) ≡ length (joined (parts chunks.old.items)) + cond more 1 0)) }
    ensures filled { AreFilled (parts chunks.new.items) }
    ensures left { IfOk result (λ put. IfNone put (parts chunks.new.items ≡ parts chunks.old.items)) }
    ensures err { OnErr result (parts chunks.new.items ≡ parts chunks.old.items) }
{
    let chunk = chunks[at].as_slice();
    let place = place_in(chunk, &entry.0);
    if !place.found && chunk.len() >= LIMIT {
        return Ok(None);
    }
    if put_alone(&mut chunks[at], place, entry)? {
        Ok(Some(!place.found))
    } else {
        Ok(None)
    }
}

/// Removes the entry under a key from the chunk that may have it, where nobody shares the chunk and it has others. Returns whether it did.
pub fn remove_from<K: Ord + Drop, V: Drop>(
    chunks: &mut Vec<Arc<Vec<Arc<(K, V), Global>>, Global>>,
    at: usize,
    place: usize,
) -> bool
    requires within { at < vec_len chunks.old }
    requires place { (C : List (K × V)) → drop at (parts chunks.old.items) ≡ C ∷ drop (at + 1) (parts chunks.old.items) → place < length C }
    requires filled { AreFilled (parts chunks.old.items) }
    ensures removed { result ≡ true → (C : List (K × V)) → drop at (parts chunks.old.items) ≡ C ∷ drop (at + 1) (parts chunks.old.items)
        → joined (parts chunks.new.items) ≡ joined (take at (parts chunks.old.items)) ++ ((take place C ++ drop (place + 1) C) ++ joined (drop (at + 1) (parts chunks.old.items))) }
    ensures filled { AreFilled (parts chunks.new.items) }
    ensures left { result ≡ false → parts chunks.new.items ≡ parts chunks.old.items }
{
    chunks[at].len() > 1 && remove_alone(&mut chunks[at], place)
}

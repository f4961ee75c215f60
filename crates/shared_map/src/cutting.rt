//! Where the entries of chunks are cut at a key.
ghost use Rattle.std.specs.Prelude.{◌≡◌, ◌<◌, ◌^◌, ◌++◌, length};
ghost use Rattle.std.specs.declared.ops.Bound.TheVariants.{Included, Excluded, Unbounded};
ghost use Rattle.std.specs.List.Sorted.{IsStrictlySortedBy};
ghost use Rattle.std.specs.Map.{keys_of};
ghost use Rattle.std.specs.BTreeMap.Range.{entries_between};
ghost use Rattle.shared_map.specs.Parts.{seen, parts, joined, AreFilled, starts_after};

use crate::chunks::{begins_after, chunk_of};
use crate::entries::place_in;
use crate::left::{Chunks, EntriesLeft, Part};

/// Returns the entries of chunks from a key on: those of the chunk that may have it, and the chunks after that.
pub fn from<'a, K: Ord, V>(
    chunks: Chunks<'a, K, V>,
    first: &K,
) -> (Part<'a, K, V>, Chunks<'a, K, V>)
    requires some { 0 < length chunks.now }
    requires ordered { IsStrictlySortedBy K.cmp (keys_of (joined (parts chunks.now))) }
    requires filled { AreFilled (parts chunks.now) }
    requires few { length (joined (parts chunks.now)) < 2 ^ 64 }
    ensures cut { seen result.0.now ++ joined (parts result.1.now)
        ≡ entries_between K.cmp (Included first.now) Unbounded (joined (parts chunks.entry.now)) }
    ensures ordered { IsStrictlySortedBy K.cmp (keys_of (seen result.0.now ++ joined (parts result.1.now))) }
    ensures filled { AreFilled (parts result.1.now) }
    ensures few { length (seen result.0.now ++ joined (parts result.1.now)) < 2 ^ 64 }
{
    let at = chunk_of(chunks, first);
    let chunk = chunks[at].as_slice();
    let place = place_in(chunk, first);
    (chunk.split_at(place.at).1, chunks.split_at(at + 1).1)
}

/// Returns whether the first of the chunks begins after a key, or there is none.
fn start_after<K: Ord, V>(chunks: Chunks<'_, K, V>, key: &K) -> bool
    ensures { result ≡ starts_after K.cmp key.now (parts chunks.now) }
{
    match chunks.first() {
        Some(chunk) => begins_after(chunk.as_slice(), key),
        None => true,
    }
}

/// Returns the entries of a front, and of the chunks after it, before a key.
pub fn until<'a, K: Ord, V>(
    front: Part<'a, K, V>,
    chunks: Chunks<'a, K, V>,
    past: &K,
) -> EntriesLeft<'a, K, V>
    requires ordered { IsStrictlySortedBy K.cmp (keys_of (seen front.now ++ joined (parts chunks.now))) }
    requires filled { AreFilled (parts chunks.now) }
    requires few { length (seen front.now ++ joined (parts chunks.now)) < 2 ^ 64 }
    ensures { result ≡ entries_between K.cmp Unbounded (Excluded past.now) (seen front.entry.now ++ joined (parts chunks.entry.now)) }
{
    if start_after(chunks, past) {
        let (ahead, rest) = front.split_at(place_in(front, past).at);
        return EntriesLeft::of(ahead, chunks.split_at(0).0, rest.split_at(0).0);
    }
    let at = chunk_of(chunks, past);
    let chunk = chunks[at].as_slice();
    let place = place_in(chunk, past);
    EntriesLeft::of(front, chunks.split_at(at).0, chunk.split_at(place.at).0)
}

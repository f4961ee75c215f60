//! Chunks of entries, found by a key.
ghost use Rattle.std.specs.Prelude.{◌≡◌, ◌<◌, ◌+◌, ◌++◌, ◌∷◌, IfOk, OnOk, OnErr, length, take, drop, vec_len, true, false};
ghost use Rattle.shared_map.specs.Parts.{seen, parts, joined, AreFilled, begins_after, starts_after};

use std::alloc::{AllocError, Global};
use std::cmp::Ordering;
use std::sync::Arc;

/// How many entries a chunk has at most.
pub const LIMIT: usize = 24;

/// Returns whether entries begin after a key.
pub fn begins_after<K: Ord, V>(entries: &[Arc<(K, V), Global>], key: &K) -> bool
    ensures { result ≡ begins_after K.cmp key.now (seen entries.now) }
{
    match entries.first() {
        Some(entry) => key.cmp(&entry.0).is_lt(),
        None => false,
    }
}

/// Returns which of the chunks may have a key: the last that does not begin after it, or else the first.
pub fn chunk_of<K: Ord, V>(chunks: &[Arc<Vec<Arc<(K, V), Global>>, Global>], key: &K) -> usize
    requires { 0 < length chunks.now }
    ensures within { result < length chunks.now }
    ensures first { 0 < result → starts_after K.cmp key.now (drop result (parts chunks.now)) ≡ false }
    ensures next { starts_after K.cmp key.now (drop (result + 1) (parts chunks.now)) ≡ true }
{
    let mut low = 0;
    let mut high = chunks.len();
    while high - low > 1 {
        let middle = low + (high - low) / 2;
        if begins_after(chunks[middle].as_slice(), key) {
            high = middle;
        } else {
            low = middle;
        }
    }
    low
}

/// Puts entries in the place of a chunk. The error is running out of memory, and changes nothing.
pub fn set_chunk<K: Drop, V: Drop>(
    alloc: Global,
    chunks: &mut Vec<Arc<Vec<Arc<(K, V), Global>>, Global>>,
    at: usize,
    made: Vec<Arc<(K, V), Global>>,
) -> Result<(), AllocError>
    requires { at < vec_len chunks.old }
    ensures ok { OnOk result (parts chunks.new.items ≡ take at (parts chunks.old.items) ++ seen made.items ∷ drop (at + 1) (parts chunks.old.items)) }
    ensures err { OnErr result (chunks.new.items ≡ chunks.old.items) }
{
    let chunk = Arc::new(alloc, made)?;
    chunks[at] = chunk;
    Ok(())
}

/// Puts entries in the place of a chunk, as two chunks where they are more than one has, and as none where there are none. The
/// error is running out of memory, and changes nothing.
pub fn put_chunk<K: Drop, V: Drop>(
    alloc: Global,
    chunks: &mut Vec<Arc<Vec<Arc<(K, V), Global>>, Global>>,
    at: usize,
    mut made: Vec<Arc<(K, V), Global>>,
) -> Result<(), AllocError>
    requires { at < vec_len chunks.old }
    ensures ok { OnOk result (joined (parts chunks.new.items)
        ≡ joined (take at (parts chunks.old.items)) ++ (seen made.items ++ joined (drop (at + 1) (parts chunks.old.items)))) }
    ensures filled { AreFilled (parts chunks.old.items) → AreFilled (parts chunks.new.items) }
    ensures err { OnErr result (chunks.new.items ≡ chunks.old.items) }
{
    if made.is_empty() {
        let _gone = chunks.remove(at);
        return Ok(());
    }
    if made.len() <= LIMIT {
        return set_chunk(alloc, chunks, at, made);
    }
    let rest = Arc::new(alloc, made.split_off(LIMIT / 2)?)?;
    let front = Arc::new(alloc, made)?;
    chunks.insert(at + 1, rest)?;
    chunks[at] = front;
    Ok(())
}

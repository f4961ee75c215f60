//! Entries of chunks, one after another.
ghost use Rattle.std.specs.Prelude.{◌≡◌, ◌++◌, OnOk, map};
ghost use Rattle.std.specs.declared.ops.Bound.TheVariants.{Included, Excluded};
ghost use Rattle.std.specs.List.Sorted.{IsStrictlySortedBy};
ghost use Rattle.std.specs.Map.{keys_of};
ghost use Rattle.std.specs.BTreeMap.Range.{entries_between};
ghost use Rattle.shared_map.specs.Parts.{seen, parts, joined, begins_from};

use std::alloc::{AllocError, Global};
use std::sync::Arc;

/// Returns whether entries begin at a key or after it.
fn begins_from<K: Ord, V>(entries: &[Arc<(K, V), Global>], key: &K) -> bool
    ensures { result ≡ begins_from K.cmp key.now (seen entries.now) }
{
    match entries.first() {
        Some(entry) => key.cmp(&entry.0).is_le(),
        None => false,
    }
}

/// Appends entries. The error is running out of memory, after which some may be there.
fn append_all<'a, K, V>(
    found: &mut Vec<&'a (K, V)>,
    entries: &'a [Arc<(K, V), Global>],
) -> Result<(), AllocError>
    ensures { OnOk result (map (λ e. e.now) found.new.items ≡ map (λ e. e.now) found.old.items ++ seen entries.entry.now) }
{
    for entry in entries {
        found.push(&**entry)?;
    }
    Ok(())
}

/// Appends the entries from a key to before another. The error is running out of memory, after which some may be there.
fn append_between<'a, K: Ord, V>(
    found: &mut Vec<&'a (K, V)>,
    entries: &'a [Arc<(K, V), Global>],
    first: &K,
    past: &K,
) -> Result<(), AllocError>
    ensures { OnOk result (map (λ e. e.now) found.new.items ≡ map (λ e. e.now) found.old.items
        ++ entries_between K.cmp (Included first.entry.now) (Excluded past.entry.now) (seen entries.entry.now)) }
{
    for entry in entries {
        if first.cmp(&entry.0).is_le() && !past.cmp(&entry.0).is_le() {
            found.push(&**entry)?;
        }
    }
    Ok(())
}

/// Appends the entries of chunks. The error is running out of memory, after which some may be there.
pub fn append_chunks<'a, K, V>(
    found: &mut Vec<&'a (K, V)>,
    chunks: &'a [Arc<Vec<Arc<(K, V), Global>>, Global>],
) -> Result<(), AllocError>
    ensures { OnOk result (map (λ e. e.now) found.new.items ≡ map (λ e. e.now) found.old.items ++ joined (parts chunks.entry.now)) }
{
    for chunk in chunks {
        append_all(found, chunk.as_slice())?;
    }
    Ok(())
}

/// Appends the entries of chunks from a key to before another, and looks no further. The error is running out of memory, after
/// which some may be there.
pub fn append_chunks_between<'a, K: Ord, V>(
    found: &mut Vec<&'a (K, V)>,
    chunks: &'a [Arc<Vec<Arc<(K, V), Global>>, Global>],
    first: &K,
    past: &K,
) -> Result<(), AllocError>
    requires { IsStrictlySortedBy K.cmp (keys_of (joined (parts chunks.now))) }
    ensures { OnOk result (map (λ e. e.now) found.new.items ≡ map (λ e. e.now) found.old.items
        ++ entries_between K.cmp (Included first.entry.now) (Excluded past.entry.now) (joined (parts chunks.entry.now))) }
{
    for chunk in chunks {
        if begins_from(chunk.as_slice(), past) {
            return Ok(());
        }
        append_between(found, chunk.as_slice(), first, past)?;
    }
    Ok(())
}

//! Entries in the order of their keys, each of which many share.
ghost use Rattle.std.specs.Prelude.{◌≡◌, ◌≤◌, ◌<◌, ◌+◌, ◌++◌, IfOk, OnOk, length, take, drop, cond};
ghost use Rattle.std.specs.declared.cmp.Ordering.TheVariants.{Greater};
ghost use Rattle.std.specs.Arc.{arc_value};
ghost use Rattle.std.specs.List.Sorted.{IsStrictlySortedBy};
ghost use Rattle.std.specs.Map.{keys_of};
ghost use Rattle.shared_map.specs.Entries.{put_entry};
ghost use Rattle.shared_map.specs.Parts.{seen, AllAre, BeginsAt};

use std::alloc::{AllocError, Global};
use std::cmp::Ordering;
use std::sync::Arc;

/// Where a key is among entries, or where it would be.
#[derive(Clone, Copy)]
pub struct EntryPlace {
    pub at: usize,
    pub found: bool,
}

/// Returns where a key is among entries in order, or would be.
pub fn place_in<K: Ord, V>(entries: &[Arc<(K, V), Global>], key: &K) -> EntryPlace
    requires { IsStrictlySortedBy K.cmp (keys_of (seen entries.now)) }
    ensures within { result.at + cond result.found 1 0 ≤ length entries.now }
    ensures before { AllAre K.cmp Greater key.now (take result.at (seen entries.now)) }
    ensures ahead { BeginsAt K.cmp key.now result.found (drop result.at (seen entries.now)) }
{
    let mut low = 0;
    let mut high = entries.len();
    while low < high {
        let middle = low + (high - low) / 2;
        match key.cmp(&entries[middle].0) {
            Ordering::Greater => low = middle + 1,
            Ordering::Equal => {
                return EntryPlace {
                    at: middle,
                    found: true,
                };
            }
            Ordering::Less => high = middle,
        }
    }
    EntryPlace {
        at: low,
        found: false,
    }
}

/// Appends entries, which are shared. The error is running out of memory, after which some may be there.
fn append_shared<K: Drop, V: Drop>(
    made: &mut Vec<Arc<(K, V), Global>>,
    entries: &[Arc<(K, V), Global>],
) -> Result<(), AllocError>
    ensures { OnOk result (seen made.new.items ≡ seen made.old.items ++ seen entries.now) }
{
    for entry in entries {
        made.push(Arc::try_clone(entry)?)?;
    }
    Ok(())
}

/// Returns the entries, which are shared and in order, with one more under its key. The error is running out of memory.
pub fn with_entry<K: Ord + Drop, V: Drop>(
    alloc: Global,
    entries: &[Arc<(K, V), Global>],
    entry: Arc<(K, V), Global>,
) -> Result<Vec<Arc<(K, V), Global>>, AllocError>
    requires { IsStrictlySortedBy K.cmp (keys_of (seen entries.now)) }
    ensures { IfOk result (λ v. seen v.items ≡ put_entry K.cmp (seen entries.now) (arc_value entry)) }
{
    let place = place_in(entries, &entry.0);
    let next = if place.found { place.at + 1 } else { place.at };
    let mut made = Vec::with_capacity(alloc, entries.len().saturating_add(1))?;
    append_shared(&mut made, entries.split_at(place.at).0)?;
    made.push(entry)?;
    append_shared(&mut made, entries.split_at(next).1)?;
    Ok(made)
}

/// Returns the entries, which are shared, but for one. The error is running out of memory.
pub fn without_entry<K: Drop, V: Drop>(
    alloc: Global,
    entries: &[Arc<(K, V), Global>],
    at: usize,
) -> Result<Vec<Arc<(K, V), Global>>, AllocError>
    requires { at < length entries.now }
    ensures { IfOk result (λ v. seen v.items ≡ take at (seen entries.now) ++ drop (at + 1) (seen entries.now)) }
{
    let mut made = Vec::with_capacity(alloc, entries.len())?;
    append_shared(&mut made, entries.split_at(at).0)?;
    append_shared(&mut made, entries.split_at(at + 1).1)?;
    Ok(made)
}

//! What was there after some writes.
ghost use Rattle.std.specs.Prelude.{◌≡◌, IfOk, OnOk, ◌-◌, take, option_map};
ghost use Rattle.object_keys.specs.Keys.{key_of};
ghost use Rattle.meta.specs.Writes.{write_of};
ghost use Rattle.spec_api.specs.History.{entries_at, after, put_or_remove};
ghost use Rattle.revisions.specs.Journals.{history_of};
ghost use Rattle.revisions.specs.Seen.{seen};

use meta::stored::StoredObject;
use meta::writes::Write;
use object_keys::Key;
use std::alloc::{AllocError, Global};
use std::collections::BTreeMap;

/// Returns the objects there after the writes up to a revision.
pub(crate) fn state_at<'a>(
    alloc: Global,
    writes: &'a [Write],
    revision: u64,
) -> Result<BTreeMap<&'a Key, &'a StoredObject>, AllocError>
    ensures { IfOk result (λ m. seen m.entries ≡ entries_at (history_of writes.entry.now) revision) }
{
    let mut state = BTreeMap::new(alloc);
    for write in up_to(writes, revision) {
        apply(&mut state, write)?;
    }
    Ok(state)
}

/// Applies one write to the state.
pub(crate) fn apply<'a>(
    state: &mut BTreeMap<&'a Key, &'a StoredObject>,
    write: &'a Write,
) -> Result<(), AllocError>
    ensures { OnOk result (seen state.new.entries ≡ after (seen state.old.entries) (write_of write.now)) }
{
    put_or_remove(state, &write.key, write.put.as_ref())
}

/// Puts an object under a key, or, with none, removes the one that is there. The error is running out of memory.
pub fn put_or_remove<'a>(
    state: &mut BTreeMap<&'a Key, &'a StoredObject>,
    key: &'a Key,
    object: Option<&'a StoredObject>,
) -> Result<(), AllocError>
    ensures { OnOk result (seen state.new.entries
        ≡ put_or_remove (seen state.old.entries) (key_of key.now) (option_map (λ o. o.now.value) object.entry)) }
{
    match object {
        Some(object) => {
            state.insert(key, object)?;
        }
        None => {
            state.remove(&key);
        }
    }
    Ok(())
}

/// Returns the writes up to a revision: the n-th has revision n + 1.
pub(crate) fn up_to(writes: &[Write], revision: u64) -> &[Write]
    ensures { result.now ≡ take (revision - 1) writes.now }
{
    let count = revision.saturating_sub(1) as usize;
    if count < writes.len() {
        &writes[..count]
    } else {
        writes
    }
}

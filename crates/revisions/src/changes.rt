//! The events of a view.
ghost use Rattle.std.specs.Prelude.{◌≡◌, IfOk, map, option_map};
ghost use Rattle.spec_api.specs.History.{found};
ghost use Rattle.spec_api.specs.Events.{events};
ghost use Rattle.object_keys.specs.Keys.{key_of};
ghost use Rattle.selector.specs.Views.{view_of};
ghost use Rattle.revisions.specs.Events.{event_seen};
ghost use Rattle.revisions.specs.Journals.{history_of};
ghost use Rattle.revisions.specs.Seen.{seen};

use crate::making::{push_change, shown};
use crate::past::{apply, state_at, up_to};
use meta::Event;
use meta::stored::StoredObject;
use meta::writes::Write;
use object_keys::Key;
use selector::View;
use std::alloc::{AllocError, Global};
use std::collections::BTreeMap;

/// Returns the events of a view by the writes with a revision above `from` and up to `to`. The writes are gone through once.
pub fn changes_between(
    alloc: Global,
    writes: &[Write],
    view: &View,
    from: u64,
    to: u64,
) -> Result<Vec<Event>, AllocError>
    ensures { IfOk result (λ found. map event_seen found.items
        ≡ events (history_of writes.now) (view_of view.now) from to) }
{
    let writes = up_to(writes, to);
    let (before, after) = writes.split_at(up_to(writes, from).len());
    let mut state = state_at(alloc, writes, from)?;
    let mut changes = Vec::new(alloc);
    for (place, write) in after.iter().enumerate() {
        let old = shown(view, &write.key, found_in(&state, &write.key));
        let new = shown(view, &write.key, write.put.as_ref());
        let revision = (before.len() + place) as u64 + 2;
        push_change(alloc, &mut changes, revision, &write.key, old, new)?;
        apply(&mut state, write)?;
    }
    Ok(changes)
}

/// Returns the object under a key.
fn found_in<'a>(
    state: &BTreeMap<&'a Key, &'a StoredObject>,
    key: &'a Key,
) -> Option<&'a StoredObject>
    ensures { option_map (λ o. o.now.value) result ≡ found (key_of key.now) (seen state.now.entries) }
{
    state.get(&key).copied()
}

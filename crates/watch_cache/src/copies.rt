//! Copies of the recorded changes above a revision.
ghost use Rattle.std.specs.Prelude.{◌≡◌, ◌<◌, ◌+◌, ◌++◌, [], ◌∷◌, IfOk, OnOk, length, map, drop};
ghost use Rattle.spec_api.specs.Windows.{IsRising};
ghost use Rattle.spec_server.specs.Recorded.{above};
ghost use Rattle.watch_cache.specs.Changes.{change_seen};

use crate::changes::Change;
use crate::searching::first_above;
use circular_buffer::HeapCircularBuffer;
use std::alloc::{AllocError, Global};

/// Returns copies of the changes above a revision, in their order. The error is running out of memory.
pub(crate) fn copies_above(
    alloc: Global,
    changes: &HeapCircularBuffer<Change>,
    revision: u64,
) -> Result<Vec<Change>, AllocError>
    requires { IsRising 0 (map change_seen changes.now.items) }
    ensures { IfOk result (λ copies. map change_seen copies.items ≡ above revision (map change_seen changes.now.items)) }
{
    let start = first_above(changes, revision);
    let mut copies = Vec::with_capacity(alloc, changes.len() - start)?;
    for place in start..changes.len() {
        push_at(&mut copies, changes, place)?;
    }
    Ok(copies)
}

/// Adds a copy of the change at a place: what the changes from there have before those that follow.
fn push_at(
    copies: &mut Vec<Change>,
    changes: &HeapCircularBuffer<Change>,
    place: usize,
) -> Result<(), AllocError>
    requires { place < length changes.now.items }
    ensures { OnOk result (map change_seen copies.new.items ++ drop (place + 1) (map change_seen changes.now.items)
        ≡ map change_seen copies.old.items ++ drop place (map change_seen changes.now.items)) }
{
    match changes.get(place) {
        Some(change) => push_copy(copies, change),
        None => Ok(()),
    }
}

/// Adds a copy of a change.
fn push_copy(copies: &mut Vec<Change>, change: &Change) -> Result<(), AllocError>
    ensures { OnOk result (map change_seen copies.new.items ≡ map change_seen copies.old.items ++ change_seen change.now ∷ []) }
{
    copies.push(change.try_copy()?)?;
    Ok(())
}

//! The keys that changes owe.
ghost use Rattle.std.specs.Prelude.{◌≡◌, ◌++◌, IfOk, map};
ghost use Rattle.indexer.specs.Shifted.{shift_of};
ghost use Rattle.reconciler.specs.Owing.{AreOwed};

use crate::reconcilers::Reconciler;
use indexer::{Indexed, Shift};
use keyed_queues::Named;
use object_keys::PerKind;
use std::alloc::{AllocError, Global};

/// Returns the keys that changes owe by what is shown, those of each change after those of the ones before it. The error is running out of memory.
pub fn owed<K: Named, C: Reconciler<K>>(
    alloc: Global,
    controller: &C,
    changes: &[Shift],
    shown: &PerKind<Indexed>,
) -> Result<Vec<K>, AllocError>
    ensures { IfOk result (λ keys. AreOwed (C.owes shown.now) (map shift_of changes.now) keys.items) }
{
    let mut keys = Vec::new(alloc);
    for change in changes {
        let mut more = controller.keys_of(alloc, change, shown)?;
        keys.append(&mut more)?;
    }
    Ok(keys)
}

/// Returns keys, and then others. The error is running out of memory.
pub fn joined<K: Named>(keys: Vec<K>, more: Vec<K>) -> Result<Vec<K>, AllocError>
    ensures { IfOk result (λ all. all.items ≡ keys.items ++ more.items) }
{
    let (mut keys, mut more) = (keys, more);
    keys.append(&mut more)?;
    Ok(keys)
}

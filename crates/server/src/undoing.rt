//! What a view showed at an earlier revision.
ghost use Rattle.std.specs.Prelude.{◌≡◌, [], ◌∷◌, IfOk, OnOk, map};
ghost use Rattle.watch_cache.specs.Changes.{change_seen};
ghost use Rattle.server.specs.PageTexts.{shown_before};

use std::alloc::AllocError;
use store::PastSnapshot;
use watch_cache::Change;

/// Returns what a view showed before these changes, by what it shows after them. The error is running out of memory.
pub(crate) fn undone(
    objects: PastSnapshot,
    changes: Vec<Change>,
) -> Result<PastSnapshot, AllocError>
    ensures { IfOk result (λ s. s ≡ shown_before objects (map change_seen changes.items)) }
{
    let mut objects = objects;
    let mut left = changes;
    while let Some(change) = left.pop() {
        undo(&mut objects, change)?;
    }
    Ok(objects)
}

/// Undoes a change: what was under its key before is there again.
fn undo(objects: &mut PastSnapshot, change: Change) -> Result<(), AllocError>
    ensures { OnOk result (objects.new ≡ shown_before objects.old (change_seen change ∷ [])) }
{
    let Change { key, old, .. } = change;
    objects.put_back(key, old)
}

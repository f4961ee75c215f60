//! Gets and lists.
ghost use Rattle.std.specs.Prelude.{◌≡◌, ℕ, List};
ghost use Rattle.spec_api.specs.Verbs.{accept_at};
ghost use Rattle.spec_api.specs.ObjectRequests.{get_object, list_objects};
ghost use Rattle.object_keys.specs.Keys.{key_of};
ghost use Rattle.selector.specs.Views.{view_of};
ghost use Rattle.verb_parts.specs.Serves.{Serves};

use meta::Write;
use object_keys::{Fault, Key};
use pages::page_text;
use reply::Reply;
use selector::View;
use std::alloc::Global;
use store::Store;

/// Returns the object under a key.
pub fn get(alloc: Global, store: &Store, key: &Key) -> Result<(Reply, Option<Write>), Fault>
    ensures { (moment : List ℕ) → Serves (accept_at (get_object (key_of key.now)) store.now.members store.now.revision moment) result }
{
    match store.get(key) {
        None => Err(Fault::NotFound(key.try_copy()?)),
        Some(kept) => {
            let text = kept.to_text(alloc)?;
            Ok((Reply { code: 200, text }, None))
        }
    }
}

/// Returns the objects of a view, at the present revision.
pub fn list(alloc: Global, store: &Store, view: &View) -> Result<(Reply, Option<Write>), Fault>
    ensures { (moment : List ℕ) → Serves (accept_at (list_objects (view_of view.now)) store.now.members store.now.revision moment) result }
{
    let members = store.list(alloc, view)?;
    let text = page_text(
        alloc,
        view.kind,
        store.revision(),
        members.as_slice(),
        None,
        None,
    )?;
    Ok((Reply { code: 200, text }, None))
}

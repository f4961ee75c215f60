//! What a view shows after a place, of which a page is cut later.
use crate::chunks::{Chunk, first_members, remaining};
use crate::ranges::asked;
use crate::snapshots::{ViewSnapshot, copied};
use meta::stored::StoredObject;
use object_keys::Key;
use selector::View;
use shared_map::SharedMap;
use std::alloc::{AllocError, Global};
use std::marker::Model;

/// What a view shows after a place at a moment, whatever is written after it: it shares the objects with the store. It is seen as the view and
/// the members after that place, in the order of keys.
pub struct PageSnapshot {
    pub(crate) objects: SharedMap<Key, StoredObject>,
    pub(crate) view: View,
    /// A key of the place.
    pub(crate) after: Option<Key>,
}

impl Drop for PageSnapshot {
    // Called where one is dropped; a derived drop is proved anew at each such place.
    fn drop(self) {
        let PageSnapshot {
            objects: _objects,
            view: _view,
            after: _after,
        } = self;
    }
}

impl Model for PageSnapshot {
    ghost use Rattle.std.specs.List.Sorted.{IsStrictlySortedBy};
    ghost use Rattle.std.specs.Map.{keys_of};
    ghost use Rattle.spec_api.specs.History.{viewed};
    ghost use Rattle.spec_api.specs.Pages.{after_place};
    ghost use Rattle.object_keys.specs.contracts.key.KeyOrd.TheImpl as key_ord;
    ghost use Rattle.selector.specs.Views.{view_of};
    ghost use Rattle.store.specs.Chunks.{after_key};
    ghost use Rattle.store.specs.Seen.{members_seen};
    ghost use Rattle.store.specs.Snapshots.{ViewMembers, coded_view_members};

    ghost Value = { ViewMembers };

    ghost coded = { coded_view_members };

    ghost view = { λ s. record {
      view = view_of s.view;
      members = after_place (after_key s.after) (viewed (view_of s.view) (members_seen s.objects));
    } };

    ghost invariant = { λ s. IsStrictlySortedBy (key_ord.ghosts).cmp (keys_of s.objects) };
}

impl PageSnapshot {
    ghost use Rattle.std.specs.Prelude.{◌≡◌, None, IfOk};
    ghost use Rattle.selector.specs.Views.{view_of};
    ghost use Rattle.store.specs.Chunks.{IsPage};

    /// Returns the view.
    pub fn view(&self) -> &View
        ensures { view_of result.now ≡ self.now.view }
    {
        &self.view
    }

    /// Returns its first chunk: at most `limit` objects, or all if it is 0. It costs the way to its start and what it has, and to count what
    /// remains a look for each few objects; where the view selects, a look at each up to the first that remains. The error is running out of
    /// memory.
    pub fn page(&self, alloc: Global, limit: usize) -> Result<Chunk<'_>, AllocError>
        ensures { IfOk result (IsPage self.now.view self.now.members limit None) }
    {
        let after = copied(self.after.as_ref())?;
        let mut range = asked(alloc, &self.objects, &self.view, after)?;
        let members = first_members(alloc, &mut range, &self.view, limit)?;
        let remaining = remaining(range, &self.view);
        Ok(Chunk { members, remaining })
    }

    /// Returns its members, to be taken one after another.
    pub fn into_members(self) -> ViewSnapshot
        ensures { result ≡ self.members }
    {
        let PageSnapshot {
            objects,
            view,
            after,
        } = self;
        ViewSnapshot {
            objects,
            view,
            after,
        }
    }
}

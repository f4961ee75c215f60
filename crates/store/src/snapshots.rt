//! What a view shows at a moment.
ghost use Rattle.std.specs.Prelude.{◌≡◌, IfOk, option_map};
ghost use Rattle.store.specs.Chunks.{after_key};

use crate::chunks::first_members;
use crate::members::MembersLeft;
use crate::ranges::asked;
use meta::lent_members::Member;
use meta::stored::StoredObject;
use object_keys::Key;
use selector::View;
use shared_map::SharedMap;
use spec_api::kinds::Kind;
use std::alloc::{AllocError, Global};
use std::marker::Model;

/// What a view shows at a moment, whatever is written after it: it shares the objects with the store. It is seen as its members, in the
/// order of keys, of which the first may have been gone past.
pub struct ViewSnapshot {
    pub(crate) objects: SharedMap<Key, StoredObject>,
    pub(crate) view: View,
    /// The last key that was gone past.
    pub(crate) after: Option<Key>,
}

impl Drop for ViewSnapshot {
    // Called where one is dropped; a derived drop is proved anew at each such place.
    fn drop(self) {
        let ViewSnapshot {
            objects: _objects,
            view: _view,
            after: _after,
        } = self;
    }
}

impl Model for ViewSnapshot {
    ghost use Rattle.std.specs.List.Sorted.{IsStrictlySortedBy};
    ghost use Rattle.std.specs.Map.{keys_of};
    ghost use Rattle.spec_api.specs.History.{Entries, viewed};
    ghost use Rattle.spec_api.specs.Pages.{after_place};
    ghost use Rattle.object_keys.specs.contracts.key.KeyOrd.TheImpl as key_ord;
    ghost use Rattle.selector.specs.Views.{view_of};
    ghost use Rattle.store.specs.Chunks.{after_key};
    ghost use Rattle.spec_server.specs.Codes.{coded_members};
    ghost use Rattle.store.specs.Seen.{members_seen};

    ghost Value = { Entries };

    ghost coded = { coded_members };

    ghost view = { λ s. after_place (after_key s.after) (viewed (view_of s.view) (members_seen s.objects)) };

    ghost invariant = { λ s. IsStrictlySortedBy (key_ord.ghosts).cmp (keys_of s.objects) };
}

/// Returns a copy of a key, if there is one. The error is running out of memory.
pub(crate) fn copied(key: Option<&Key>) -> Result<Option<Key>, AllocError>
    ensures { IfOk result (λ copy. after_key copy ≡ after_key (option_map (λ k. k.now) key.entry)) }
{
    match key {
        None => Ok(None),
        Some(key) => Ok(Some(key.try_copy()?)),
    }
}

impl ViewSnapshot {
    ghost use Rattle.std.specs.Prelude.{◌≡◌, ◌==◌, [], IfOk, length, map};
    ghost use Rattle.spec_api.specs.History.{viewed};
    ghost use Rattle.object_keys.specs.Keys.{key_of};
    ghost use Rattle.meta.specs.Members.{member_of};
    ghost use Rattle.selector.specs.Views.{view_of};
    ghost use Rattle.store.specs.Seen.{members_seen};
    ghost use Rattle.store.specs.Snapshots.{LeavesAfter};

    /// Returns no members. It takes no memory.
    pub fn none(alloc: Global, kind: Kind) -> ViewSnapshot
        ensures { result ≡ [] }
    {
        ViewSnapshot {
            objects: SharedMap::new(alloc),
            view: View::unfiltered(alloc, kind, None),
            after: None,
        }
    }

    /// Returns what a view shows of objects. The error is running out of memory.
    pub(crate) fn of(
        alloc: Global,
        objects: &SharedMap<Key, StoredObject>,
        view: &View,
    ) -> Result<ViewSnapshot, AllocError>
        ensures { IfOk result (λ s. s ≡ viewed (view_of view.now) (members_seen objects.now)) }
    {
        // Its length says that a map is in order.
        let _len = objects.len();
        Ok(ViewSnapshot {
            objects: objects.try_copy()?,
            view: view.try_copy(alloc)?,
            after: None,
        })
    }

    /// Returns its members, to be taken one after another. It costs the way to the first. The error is running out of memory.
    pub fn members(&self, alloc: Global) -> Result<MembersLeft<'_>, AllocError>
        ensures { IfOk result (λ left. left ≡ self.now) }
    {
        let after = copied(self.after.as_ref())?;
        Ok(MembersLeft {
            range: asked(alloc, &self.objects, &self.view, after)?,
            view: &self.view,
        })
    }

    /// Returns its members. The error is running out of memory.
    pub fn all(&self, alloc: Global) -> Result<Vec<Member<'_>>, AllocError>
        ensures { IfOk result (λ found. map member_of found.items ≡ self.now) }
    {
        let after = copied(self.after.as_ref())?;
        let mut range = asked(alloc, &self.objects, &self.view, after)?;
        first_members(alloc, &mut range, &self.view, 0)
    }

    /// Returns whether it has no members. The error is running out of memory.
    pub fn is_empty(&self, alloc: Global) -> Result<bool, AllocError>
        ensures { IfOk result (λ none. none ≡ (length self.now == 0)) }
    {
        let mut members = self.members(alloc)?;
        Ok(members.take_next().is_none())
    }

    /// Goes past a member, and those before it, and has the others. It takes no memory.
    pub fn go_past(&mut self, key: Key)
        ensures { LeavesAfter (key_of key) self.old self.new }
    {
        self.after = Some(key);
    }
}

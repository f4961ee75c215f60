//! What a view shows, in which what was there earlier can be put back.
use crate::page_snapshots::PageSnapshot;
use meta::stored::StoredObject;
use object_keys::Key;
use selector::View;
use shared_map::SharedMap;
use std::alloc::{AllocError, Global};
use std::marker::Model;

/// What a view shows at a moment, whatever is written after it: it shares the objects with the store. What was there earlier can be put back
/// into it, and the store stays as it is. It is seen as the view and its members, in the order of keys.
#[derive(Drop)]
pub struct PastSnapshot {
    objects: SharedMap<Key, StoredObject>,
    view: View,
}

impl Model for PastSnapshot {
    ghost use Rattle.spec_api.specs.History.{viewed};
    ghost use Rattle.selector.specs.Views.{view_of};
    ghost use Rattle.store.specs.Seen.{members_seen};
    ghost use Rattle.store.specs.Snapshots.{ViewMembers, coded_view_members};

    ghost Value = { ViewMembers };

    ghost coded = { coded_view_members };

    ghost view = { λ s. record { view = view_of s.view; members = viewed (view_of s.view) (members_seen s.objects) } };
}

impl PastSnapshot {
    ghost use Rattle.std.specs.Prelude.{◌≡◌, IfOk, OnOk, OnErr, option_map};
    ghost use Rattle.spec_api.specs.History.{put_or_remove, seen, viewed};
    ghost use Rattle.spec_api.specs.Pages.{after_place};
    ghost use Rattle.object_keys.specs.Keys.{key_of};
    ghost use Rattle.selector.specs.Views.{view_of};
    ghost use Rattle.store.specs.Chunks.{after_key};
    ghost use Rattle.store.specs.Seen.{members_seen};

    /// Returns what a view shows of objects. The error is running out of memory.
    pub(crate) fn of(
        alloc: Global,
        objects: &SharedMap<Key, StoredObject>,
        view: &View,
    ) -> Result<PastSnapshot, AllocError>
        ensures { IfOk result (λ s. s ≡ record {
          view = view_of view.now;
          members = viewed (view_of view.now) (members_seen objects.now);
        }) }
    {
        Ok(PastSnapshot {
            objects: objects.try_copy()?,
            view: view.try_copy(alloc)?,
        })
    }

    /// Puts back what was under a key: the object, if the view shows it, is a member, and else none is under the key. It costs a copy of the
    /// few entries beside it, the first time that one of these changes. The error is running out of memory, and changes nothing.
    pub fn put_back(&mut self, key: Key, object: Option<StoredObject>) -> Result<(), AllocError>
        ensures ok { OnOk result (self.new ≡ record {
          view = self.old.view;
          members = put_or_remove self.old.members (key_of key) (seen self.old.view (key_of key) (option_map (λ o. o.value) object));
        }) }
        ensures err { OnErr result (self.new ≡ self.old) }
    {
        match object {
            Some(object) => self.objects.insert(key, object),
            None => self.objects.remove(&key),
        }
    }

    /// Returns its members after the place of a key, or all, to be cut into a page. It takes no memory.
    pub fn after(self, key: Option<Key>) -> PageSnapshot
        ensures { result ≡ record {
          view = self.view;
          members = after_place (after_key key) self.members;
        } }
    {
        let PastSnapshot { objects, view } = self;
        // Its length says that a map is in order.
        let _len = objects.len();
        PageSnapshot {
            objects,
            view,
            after: key,
        }
    }
}

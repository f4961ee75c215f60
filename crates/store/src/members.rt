//! Members that are still to be taken.
use crate::chunks::next_member;
use meta::lent_members::Member;
use meta::stored::StoredObject;
use object_keys::Key;
use selector::View;
use shared_map::EntriesLeft;
use std::marker::Model;

/// Members of a view that are taken one after another, in the order of keys. It is seen as those that are left.
#[derive(Drop)]
pub struct MembersLeft<'a> {
    pub(crate) range: EntriesLeft<'a, Key, StoredObject>,
    pub(crate) view: &'a View,
}

impl<'a> Model for MembersLeft<'a> {
    ghost use Rattle.std.specs.Prelude.{◌≡◌, false};
    ghost use Rattle.spec_api.specs.History.{Entries, viewed};
    ghost use Rattle.spec_api.specs.Lists.{is_selective};
    ghost use Rattle.selector.specs.Views.{view_of};
    ghost use Rattle.spec_server.specs.Codes.{coded_members};
    ghost use Rattle.store.specs.Seen.{members_seen};

    ghost Value = { Entries };

    ghost coded = { coded_members };

    ghost view = { λ m. viewed (view_of m.view.now) (members_seen m.range) };

    ghost invariant = { λ m. is_selective (view_of m.view.now) ≡ false
        → viewed (view_of m.view.now) (members_seen m.range) ≡ members_seen m.range };
}

impl<'a> MembersLeft<'a> {
    ghost use Rattle.std.specs.Prelude.{◌≡◌, [], ◌∷◌, IfSome, IfNone};
    ghost use Rattle.meta.specs.Members.{member_of};

    /// Takes the next member. It costs a look at each object that is passed over, and takes no memory.
    pub fn take_next(&mut self) -> Option<Member<'a>>
        ensures some { IfSome result (λ m. self.old ≡ member_of m ∷ self.new) }
        ensures none { IfNone result (self.old ≡ []) }
        ensures left { IfNone result (self.new ≡ []) }
    {
        next_member(&mut self.range, self.view)
    }
}

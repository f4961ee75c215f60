//! All writes, the oldest first, and what lists and watches of any revision have of them.
use crate::changes::changes_between;
use crate::past::state_at;
use meta::Event;
use meta::lent_members::Member;
use meta::writes::Write;
use selector::View;
use std::alloc::{AllocError, Global};
use std::marker::Model;

/// All writes, the oldest first. The first has revision 2, and each write the next one.
#[derive(Drop)]
pub struct Journal {
    writes: Vec<Write>,
}

impl Model for Journal {
    ghost use Rattle.spec_api.specs.History.{History};
    ghost use Rattle.model_encodings.specs.HistoryCodes.{coded_history};

    ghost Value = { History };

    ghost coded = { coded_history };

    ghost use Rattle.revisions.specs.Journals.{history_of};

    ghost view = { λ j. history_of j.writes.items };
}

impl Journal {
    ghost use Rattle.std.specs.Prelude.{◌≡◌, ◌++◌, ◌∷◌, [], IfOk, OnOk, OnErr, length, map};
    ghost use Rattle.meta.specs.Members.{member_of};
    ghost use Rattle.meta.specs.Writes.{write_of};
    ghost use Rattle.selector.specs.Views.{view_of};
    ghost use Rattle.spec_api.specs.History as history;
    ghost use Rattle.spec_api.specs.History.{writes, list};
    ghost use Rattle.spec_api.specs.Events.{events};
    ghost use Rattle.revisions.specs.Events.{event_seen};

    /// Returns a journal of no writes.
    pub fn new(alloc: Global) -> Journal
        ensures { result ≡ [] }
    {
        Journal {
            writes: Vec::new(alloc),
        }
    }

    /// Returns how many writes there are.
    pub fn len(&self) -> usize
        ensures { result ≡ length (writes self.now) }
    {
        self.writes.as_slice().len()
    }

    /// Adds a write. The error is running out of memory, and changes nothing.
    pub fn push(&mut self, write: Write) -> Result<(), AllocError>
        ensures ok { OnOk result (self.new ≡ self.old ++ history.write (write_of write) ∷ []) }
        ensures err { OnErr result (self.new ≡ self.old) }
    {
        self.writes.push(write)?;
        Ok(())
    }

    /// Returns the objects of a view as they were at a revision, each with its key, in the order of the keys. The error is
    /// running out of memory.
    pub fn list_at<'a>(
        &'a self,
        alloc: Global,
        view: &View,
        revision: u64,
    ) -> Result<Vec<Member<'a>>, AllocError>
        ensures { IfOk result (λ found. map member_of found.items
            ≡ list self.entry.now (view_of view.entry.now) revision) }
    {
        let state = state_at(alloc, self.writes.as_slice(), revision)?;
        let mut found = Vec::new(alloc);
        for (key, object) in state.iter() {
            if view.contains(*key, *object) {
                found.push(Member {
                    key: *key,
                    object: *object,
                })?;
            }
        }
        Ok(found)
    }

    /// Returns the events of a view by the writes with a revision above `from` and up to `to`, in order. The writes are gone
    /// through once. The error is running out of memory.
    pub fn changes(
        &self,
        alloc: Global,
        view: &View,
        from: u64,
        to: u64,
    ) -> Result<Vec<Event>, AllocError>
        ensures { IfOk result (λ found. map event_seen found.items
            ≡ events self.now (view_of view.now) from to) }
    {
        changes_between(alloc, self.writes.as_slice(), view, from, to)
    }
}

//! Sessions of which all that happens is recorded.
use crate::effects::{Effect, Prepared};
use crate::entries::{JournalEntry, happening};
use crate::sessions::Session;
use meta::Write;
use object_keys::Fault;
use reply::Reply;
use request_parts::Request;
use server::Server;
use std::alloc::{AllocError, Global};
use std::marker::Model;

/// A session, and the journal of all that has happened at it.
pub struct RecordedSession {
    session: Session,
    journal: Vec<JournalEntry>,
}

impl Drop for RecordedSession {
    // Called where one is dropped; a derived drop is proved anew at each such place.
    fn drop(self) {
        let RecordedSession {
            session: _session,
            journal: _journal,
        } = self;
    }
}

impl Model for RecordedSession {
    ghost use Rattle.std.specs.Prelude.{map};
    ghost use Rattle.line_session.specs.Entries.{entry_of};
    ghost use Rattle.line_session.specs.RecordedStates.{RecordedState, coded_recorded};

    ghost Value = { RecordedState };

    ghost coded = { coded_recorded };

    ghost view = { λ s. record { session = s.session; journal = map entry_of s.journal.items } };
}

impl RecordedSession {
    ghost use Rattle.std.specs.Prelude.{◌≡◌, IfOk, OnOk, OnErr, map, option_map};
    ghost use Rattle.verb_parts.specs.Serves.{Serves};
    ghost use Rattle.spec_api.specs.Verbs.{with_write};
    ghost use Rattle.meta.specs.Writes.{write_of};
    ghost use Rattle.spec_line_protocol.specs.Lines as lines;
    ghost use Rattle.spec_line_protocol.specs.Lines.{line_of};
    ghost use Rattle.line_session.specs.Effects.{effect_of};
    ghost use Rattle.line_session.specs.SessionStates.{HasRoom, accepted, changed_by, of_write, reply_to, state_after};
    ghost use Rattle.request_parts.specs.Requests.{request_of};
    ghost use Rattle.line_session.specs.Entries.{entry_of};
    ghost use Rattle.line_session.specs.RecordedStates.{begun, entry_in, with_entry, journal_after};

    /// Returns a session at which nothing has happened, whose windows have this size. The error is running out of memory.
    pub fn new(alloc: Global, window: usize) -> Result<RecordedSession, AllocError>
        ensures { IfOk result (λ s. s ≡ begun window) }
    {
        Ok(RecordedSession {
            session: Session::new(alloc, window)?,
            journal: Vec::new(alloc),
        })
    }

    /// Returns the session's server.
    pub fn server(&self) -> &Server
        ensures { result.now ≡ self.now.session.server }
    {
        self.session.server()
    }

    /// Returns the journal: the writes and the compactions, the oldest first. It takes no memory.
    pub fn journal(&self) -> &[JournalEntry]
        ensures { map entry_of result.now ≡ self.now.journal }
    {
        self.journal.as_slice()
    }

    /// Changes what an effect changes, for which there is room, and records what happens by it. An error, running out of memory, changes
    /// nothing.
    fn commit(&mut self, effect: Effect) -> Result<(), AllocError>
        requires { HasRoom self.old.session (effect_of effect) }
        ensures session { OnOk result (self.new.session ≡ changed_by self.old.session (effect_of effect)) }
        ensures journal { OnOk result (self.new.journal ≡ with_entry self.old.journal (entry_in (effect_of effect))) }
        ensures err { OnErr result (self.new ≡ self.old) }
    {
        let Some(entry) = happening(&effect)? else {
            return self.session.commit(effect);
        };
        self.journal.push(entry)?;
        if self.session.commit(effect).is_err() {
            drop(self.journal.pop());
            return Err(AllocError);
        }
        Ok(())
    }

    /// Returns the reply to a line, after which what it changes is changed and recorded. An error, running out of memory, changes
    /// nothing.
    pub fn serve_text(&mut self, alloc: Global, text: &[u8]) -> Result<Vec<u8>, AllocError>
        ensures text { IfOk result (λ l. l.items ≡ reply_to self.old.session (line_of text.now)) }
        ensures session { OnOk result (self.new.session ≡ state_after self.old.session (line_of text.now)) }
        ensures journal { OnOk result (self.new.journal ≡ journal_after self.old.session self.old.journal (line_of text.now)) }
        ensures err { OnErr result (self.new ≡ self.old) }
    {
        let Prepared { reply, effect } = self.session.prepare(alloc, text)?;
        self.commit(effect)?;
        Ok(reply)
    }

    /// Returns the reply to a request with what it writes, or why it is refused. Nothing is written yet.
    pub fn answer(&self, alloc: Global, request: Request) -> Result<(Reply, Option<Write>), Fault>
        ensures { Serves (accepted self.now.session (request_of request)) result }
    {
        self.session.answer(alloc, request)
    }

    /// Makes a write, if there is one, for which there is room, and records it. An error, running out of memory, changes nothing.
    pub fn take(&mut self, write: Option<Write>) -> Result<(), AllocError>
        requires { HasRoom self.old.session (of_write (option_map write_of write)) }
        ensures session { OnOk result (self.new.session ≡ changed_by self.old.session (of_write (option_map write_of write))) }
        ensures journal { OnOk result (self.new.journal ≡ with_write self.old.journal (option_map write_of write)) }
        ensures err { OnErr result (self.new ≡ self.old) }
    {
        match write {
            None => Ok(()),
            Some(write) => self.commit(Effect::Write(write)),
        }
    }

    /// Returns the reply to a compaction, after which it is made and recorded, unless it is refused. An error, running out of memory,
    /// changes nothing.
    pub fn compact(&mut self, alloc: Global, revision: u64) -> Result<Vec<u8>, AllocError>
        ensures text { IfOk result (λ l. l.items ≡ reply_to self.old.session (lines.compact revision)) }
        ensures session { OnOk result (self.new.session ≡ state_after self.old.session (lines.compact revision)) }
        ensures journal { OnOk result (self.new.journal ≡ journal_after self.old.session self.old.journal (lines.compact revision)) }
        ensures err { OnErr result (self.new ≡ self.old) }
    {
        let Prepared { reply, effect } = self.session.prepare_compaction(alloc, revision)?;
        self.commit(effect)?;
        Ok(reply)
    }
}

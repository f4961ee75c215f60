//! Open watches, on which a server writes frames, and of which a beginning was read.
ghost use Rattle.std.specs.Prelude.{◌≡◌, ◌++◌, ◌≤◌, nat_lt, drop, take, length, ◌∷◌, [], IfOk, OnOk, OnErr, map, string_bytes, false};
ghost use Rattle.spec_api.specs.Frames.{frame_text, error_frame, bookmark_frame};
ghost use Rattle.spec_api.specs.Streams.{bookmark, event as change, text_of_lines};
ghost use Rattle.object_keys.specs.Faults.{refusal_of};
ghost use Rattle.revisions.specs.Events.{event_seen};
ghost use Rattle.spec_sim.specs.Followers.{opened_at};
ghost use Rattle.spec_sim.specs.Moves.{after_lines, after_initial, after_refusal};
ghost use Rattle.sim_followers.specs.Openings.{initial_lines};

use crate::openings::InitialBacklog;
use meta::Kind;
use object_keys::Fault;
use revisions::Event;
use std::alloc::{AllocError, Global};
use std::marker::Model;

/// An open watch: the revision up to which all changes were written, the initial lines that are still to be written before any
/// change, what was written, of which a beginning was read, and whether an ERROR frame was written, after which nothing is.
#[derive(Drop)]
pub struct Link {
    stands: u64,
    opening: InitialBacklog,
    written: Vec<u8>,
    read: usize,
    is_refused: bool,
}

impl Model for Link {
    ghost use Rattle.std.specs.Prelude.{◌≤◌, drop, length};
    ghost use Rattle.spec_sim.specs.Followers as followers;
    ghost use Rattle.spec_sim.specs.Codes.{coded_link};

    ghost Value = { followers.Link };

    ghost coded = { coded_link };

    ghost view = { λ l. record {
      stands = l.stands;
      initial = l.opening;
      unread = drop l.read l.written.items;
      is_refused = l.is_refused;
    } };

    ghost invariant = { λ l. l.read ≤ length l.written.items };
}

impl Link {
    /// Returns a link on which nothing is written yet, at a revision.
    pub fn opened_at(alloc: Global, revision: u64) -> Link
        ensures { result ≡ opened_at revision }
    {
        Link {
            stands: revision,
            opening: InitialBacklog::none(alloc),
            written: Vec::new(alloc),
            read: 0,
            is_refused: false,
        }
    }

    /// Returns a link on which nothing is written yet, and on which the objects of these events are to be, and then the bookmark
    /// that closes them, at a revision.
    pub fn streaming_at(alloc: Global, events: Vec<Event>, revision: u64) -> Link
        ensures { result ≡ record {
          stands = revision;
          initial = initial_lines (map event_seen events.items) revision;
          unread = [];
          is_refused = false;
        } }
    {
        Link {
            stands: revision,
            opening: InitialBacklog::of(events, revision),
            written: Vec::new(alloc),
            read: 0,
            is_refused: false,
        }
    }

    /// Returns the revision up to which all changes were written.
    pub fn stands(&self) -> u64
        ensures { result ≡ self.now.stands }
    {
        self.stands
    }

    /// Returns whether initial lines are left to write.
    pub fn is_opening(&self) -> bool
        ensures { result ≡ nat_lt 0 (length self.now.initial) }
    {
        self.opening.len() > 0
    }

    /// Returns whether an ERROR frame was written.
    pub fn is_refused(&self) -> bool
        ensures { result ≡ self.now.is_refused }
    {
        self.is_refused
    }

    /// Returns the next bytes that were not read, at most so many.
    pub fn next_bytes(&self, most: usize) -> &[u8]
        ensures { result.now ≡ take most self.now.unread }
    {
        let unread = self.written.as_slice().split_at(self.read).1;
        unread.split_at(most.min(unread.len())).0
    }

    /// Returns how many bytes were not read.
    pub fn unread(&self) -> usize
        ensures { result ≡ length self.now.unread }
    {
        self.written.len() - self.read
    }

    /// Passes over the next bytes that were not read, at most so many.
    pub fn pass(&mut self, most: usize)
        ensures { self.new ≡ record self.old { unread = drop most self.old.unread } }
    {
        self.read += most.min(self.unread());
        if self.read == self.written.len() {
            self.written.clear();
            self.read = 0;
        }
    }

    /// Writes bytes, and stands at a revision.
    fn write(&mut self, text: &str, stands: u64) -> Result<(), AllocError>
        ensures ok { OnOk result (self.new ≡ record self.old { stands = stands; unread = self.old.unread ++ text.now }) }
        ensures err { OnErr result (self.new ≡ self.old) }
    {
        self.written.extend_from_slice(text.as_bytes())?;
        self.stands = stands;
        Ok(())
    }

    /// Writes the next initial lines, at most so many, and returns how many. The error is running out of memory, and changes
    /// nothing.
    pub fn write_initial(
        &mut self,
        alloc: Global,
        kind: Kind,
        most: usize,
    ) -> Result<u64, AllocError>
        ensures ok { OnOk result (self.new ≡ after_initial kind most self.old) }
        ensures count { IfOk result (λ n. n ≡ length (take most self.old.initial)) }
        ensures err { OnErr result (self.new ≡ self.old) }
    {
        let text = self.opening.text(alloc, kind, most)?;
        let stands = self.stands;
        self.write(text.as_str(), stands)?;
        let count = most.min(self.opening.len());
        self.opening.pass(most);
        Ok(count as u64)
    }

    /// Writes the frames of changes, and stands at a revision. The error is running out of memory, and changes nothing.
    pub fn write_changes(
        &mut self,
        alloc: Global,
        kind: Kind,
        events: &[Event],
        stands: u64,
    ) -> Result<(), AllocError>
        ensures ok { OnOk result (self.new ≡ after_lines kind (map change (map event_seen events.now)) stands self.old) }
        ensures err { OnErr result (self.new ≡ self.old) }
    {
        let text = changes_text(alloc, kind, events)?;
        self.write(text.as_str(), stands)
    }

    /// Writes a bookmark at a revision, and stands there. The error is running out of memory, and changes nothing.
    pub fn write_bookmark(
        &mut self,
        alloc: Global,
        kind: Kind,
        revision: u64,
    ) -> Result<(), AllocError>
        ensures ok { OnOk result (self.new ≡ after_lines kind (bookmark revision ∷ []) revision self.old) }
        ensures err { OnErr result (self.new ≡ self.old) }
    {
        let text = framing::bookmark_text(alloc, kind, false, revision)?;
        self.write(text.as_str(), revision)
    }

    /// Writes an ERROR frame, the last one. The error is running out of memory, and changes nothing.
    pub fn write_refusal(&mut self, alloc: Global, fault: &Fault) -> Result<(), AllocError>
        ensures ok { OnOk result (self.new ≡ after_refusal (refusal_of fault.now) self.old) }
        ensures err { OnErr result (self.new ≡ self.old) }
    {
        let text = framing::error_text(alloc, fault)?;
        let stands = self.stands;
        self.write(text.as_str(), stands)?;
        self.is_refused = true;
        Ok(())
    }
}

/// Returns the frames of changes of a kind.
fn changes_text(alloc: Global, kind: Kind, events: &[Event]) -> Result<String, AllocError>
    ensures { IfOk result (λ t. string_bytes t ≡ text_of_lines kind (map change (map event_seen events.now))) }
{
    let mut text = String::new(alloc);
    for event in events {
        let frame = framing::frame_text(alloc, event)?;
        text.push_str(frame.as_str())?;
    }
    Ok(text)
}

//! What is still to be written of the lines with which a stream of initial events begins.
ghost use Rattle.std.specs.Prelude.{◌≡◌, ◌++◌, drop, take, length, [], true, IfOk, map, string_bytes};
ghost use Rattle.spec_api.specs.Frames.{frame_text, bookmark_frame};
ghost use Rattle.spec_api.specs.Streams.{text_of_lines};
ghost use Rattle.revisions.specs.Events.{event_seen};
ghost use Rattle.sim_followers.specs.Openings.{initial_lines, added_text};

use meta::Kind;
use revisions::Event;
use std::alloc::{AllocError, Global};
use std::marker::Model;

/// The initial lines of a watch that are still to be written: objects that are there, and the bookmark that closes them.
#[derive(Drop)]
pub struct InitialBacklog {
    events: Vec<Event>,
    written: usize,
    revision: u64,
    is_closed: bool,
}

impl Model for InitialBacklog {
    ghost use Rattle.std.specs.Prelude.{◌≤◌, List, drop, length, map};
    ghost use Rattle.std.specs.Coded.{coded_list};
    ghost use Rattle.spec_api.specs.Streams.{Line};
    ghost use Rattle.sim_followers.specs.Openings.{lines_left};
    ghost use Rattle.revisions.specs.Events.{event_seen};
    ghost use Rattle.spec_sim.specs.LineCodes.{coded_line};

    ghost Value = { List Line };

    ghost coded = { coded_list coded_line };

    ghost view = { λ o. lines_left o.is_closed (drop o.written (map event_seen o.events.items)) o.revision };

    ghost invariant = { λ o. o.written ≤ length o.events.items };
}

impl InitialBacklog {
    /// Returns no lines.
    pub fn none(alloc: Global) -> InitialBacklog
        ensures { result ≡ [] }
    {
        InitialBacklog {
            events: Vec::new(alloc),
            written: 0,
            revision: 0,
            is_closed: true,
        }
    }

    /// Returns a line for each of these objects, and the bookmark that closes them, at a revision.
    pub fn of(events: Vec<Event>, revision: u64) -> InitialBacklog
        ensures { result ≡ initial_lines (map event_seen events.items) revision }
    {
        InitialBacklog {
            events,
            written: 0,
            revision,
            is_closed: false,
        }
    }

    /// Returns how many lines there are.
    pub fn len(&self) -> usize
        ensures { result ≡ length self.now }
    {
        if self.is_closed {
            return 0;
        }
        self.events.len() - self.written + 1
    }

    /// Returns the bytes of the next lines, at most so many. The error is running out of memory.
    pub fn text(&self, alloc: Global, kind: Kind, most: usize) -> Result<String, AllocError>
        ensures { IfOk result (λ t. string_bytes t ≡ text_of_lines kind (take most self.now)) }
    {
        if self.is_closed {
            return Ok(String::new(alloc));
        }
        let left = self.events.as_slice().split_at(self.written).1;
        if most <= left.len() {
            let objects = added_text(alloc, left.split_at(most).0)?;
            return Ok(objects);
        }
        let all = closed_text(alloc, kind, left, self.revision)?;
        Ok(all)
    }

    /// Passes over the next lines, at most so many.
    pub fn pass(&mut self, most: usize)
        ensures { self.new ≡ drop most self.old }
    {
        if self.is_closed {
            return;
        }
        if self.events.len() - self.written < most {
            self.events.clear();
            self.written = 0;
            self.is_closed = true;
            return;
        }
        self.written += most;
    }
}

/// Returns the frames of objects that are there, and of the bookmark that closes them.
fn closed_text(
    alloc: Global,
    kind: Kind,
    events: &[Event],
    revision: u64,
) -> Result<String, AllocError>
    ensures { IfOk result (λ t. string_bytes t ≡ added_text (map event_seen events.now) ++ frame_text (bookmark_frame kind true revision)) }
{
    let mut text = added_text(alloc, events)?;
    let closing = framing::bookmark_text(alloc, kind, true, revision)?;
    text.push_str(closing.as_str())?;
    Ok(text)
}

/// Returns the frames of objects that are there.
fn added_text(alloc: Global, events: &[Event]) -> Result<String, AllocError>
    ensures { IfOk result (λ t. string_bytes t ≡ added_text (map event_seen events.now)) }
{
    let mut text = String::new(alloc);
    for event in events {
        let frame = framing::added_text(alloc, &event.object)?;
        text.push_str(frame.as_str())?;
    }
    Ok(text)
}

//! A watch, as who reads it sees it.
use framing::{added_text, bookmark_text, frame_text};
use http_watch::Begun;
use revisions::{Event, WatchedEvents};
use spec_api::kinds::Kind;
use std::alloc::{AllocError, Global};

/// A watch of a kind: after which revision it goes on, and what is still to be read of the lines that it was given.
#[derive(Drop)]
pub struct Watch {
    pub kind: Kind,
    pub after: u64,
    text: Vec<u8>,
    /// How many bytes of them were read.
    read: usize,
}

/// Returns the lines of events. The error is running out of memory.
fn lines(alloc: Global, events: &[Event]) -> Result<Vec<u8>, AllocError> {
    let mut text = Vec::new(alloc);
    for event in events {
        let line = frame_text(alloc, event)?;
        text.extend_from_slice(line.as_bytes())?;
    }
    Ok(text)
}

/// Returns the lines of what is there of a kind as a watch begins, and of the bookmark that closes them. The error is running out of memory.
fn initial_lines(alloc: Global, kind: Kind, begun: &Begun) -> Result<Vec<u8>, AllocError> {
    let mut text = Vec::new(alloc);
    for member in &begun.objects.all(alloc)? {
        let line = added_text(alloc, member.object)?;
        text.extend_from_slice(line.as_bytes())?;
    }
    let line = bookmark_text(alloc, kind, true, begun.revision)?;
    text.extend_from_slice(line.as_bytes())?;
    Ok(text)
}

impl Watch {
    /// Returns a watch of a kind after a revision, which was given nothing yet.
    pub fn new(alloc: Global, kind: Kind, after: u64) -> Watch {
        Watch {
            kind,
            after,
            text: Vec::new(alloc),
            read: 0,
        }
    }

    /// Returns a watch of a kind that begins with what is there of it. The error is running out of memory.
    pub fn streaming(alloc: Global, kind: Kind, begun: &Begun) -> Result<Watch, AllocError> {
        Ok(Watch {
            kind,
            after: begun.revision,
            text: initial_lines(alloc, kind, begun)?,
            read: 0,
        })
    }

    /// Reads on in the lines, and returns how many bytes came: none where all were read.
    pub fn read(&mut self, buf: &mut [u8]) -> usize {
        let Some(left) = self.text.as_slice().get(self.read..) else {
            return 0;
        };
        let len = left.len().min(buf.len());
        buf[..len].copy_from_slice(&left[..len]);
        self.read = self.read.saturating_add(len);
        len
    }

    /// Takes in what the watch is given next, once all lines were read. The error is running out of memory, and changes nothing.
    pub fn take_in(&mut self, alloc: Global, watched: &WatchedEvents) -> Result<(), AllocError> {
        self.text = lines(alloc, &watched.events)?;
        self.read = 0;
        self.after = watched.stands;
        Ok(())
    }
}

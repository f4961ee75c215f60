//! A reader that gives a text in pieces, and fails at one of its calls.
use std::io;
use std::io::{ErrorKind, Read};

/// Gives a text, at most `most` bytes a call, and an error of this kind at the call `bad`, counted from 0.
#[derive(Drop)]
pub struct Source<'a> {
    pub left: &'a [u8],
    pub most: usize,
    pub bad: u64,
    pub kind: ErrorKind,
    pub calls: u64,
}

impl<'a> Source<'a> {
    /// Returns a source that fails at no call.
    pub fn new(text: &'a [u8], most: usize) -> Source<'a> {
        Source {
            left: text,
            most,
            bad: u64::MAX,
            kind: ErrorKind::BrokenPipe,
            calls: 0,
        }
    }
}

impl<'a> Read for Source<'a> {
    fn read(&mut self, buf: &mut [u8]) -> io::Result<usize> {
        let call = self.calls;
        self.calls = call.saturating_add(1);
        if call == self.bad {
            return Err(io::Error::from(self.kind));
        }
        let len = self.left.len().min(self.most).min(buf.len());
        buf[..len].copy_from_slice(&self.left[..len]);
        self.left = self.left.split_at(len).1;
        Ok(len)
    }
}

//! A writer that stores what is written, and fails at one of its calls.
use std::io;
use std::io::{ErrorKind, Write};

/// Stores what is written, at most 4 bytes a call, and gives an error of this kind at the call `bad` of `write`
/// or `flush`.
#[derive(Drop)]
pub struct TestSink {
    pub written: Vec<u8>,
    pub bad: u64,
    pub kind: ErrorKind,
    pub calls: u64,
}

impl TestSink {
    /// Answers a call: an error at the bad one.
    fn call(&mut self) -> io::Result<()> {
        let call = self.calls;
        self.calls = call.saturating_add(1);
        if call == self.bad {
            return Err(io::Error::from(self.kind));
        }
        Ok(())
    }
}

impl Write for TestSink {
    fn write(&mut self, buf: &[u8]) -> io::Result<usize> {
        self.call()?;
        let len = buf.len().min(4);
        self.written.extend_from_slice(&buf[..len])?;
        Ok(len)
    }

    fn flush(&mut self) -> io::Result<()> {
        self.call()
    }
}

//! Bodies in chunks, written.
ghost use Rattle.std.specs.Prelude.{◌≡◌, ◌<◌, ◌++◌, IfOk, OnOk, length};
ghost use Rattle.chunked.specs.Bodies.{chunk_text, last_chunk};
ghost use Rattle.chunked.specs.Writing.{Writes, WritesInPlace};

use crate::fault::ChunkFault;
use crate::watched::Watched;
use std::alloc::{AllocError, Global};
use std::io::Write;

/// What is written after all chunks.
const LAST_CHUNK: &[u8] = b"0\r\n\r\n";

/// How many bytes a chunk has beside its own: a size of at most 16 digits, and two ends of lines.
const MOST_ADDED: usize = 20;

/// A writer of a body in chunks.
#[derive(Drop)]
pub struct Writer<W: Drop> {
    /// What is written to.
    pub device: Watched<W>,
}

/// Adds bytes to a text as a chunk: chunks that are added one after another go out in one write. There must be some: a chunk
/// without bytes would end the body. The error is out of memory; a beginning of the chunk may then have been added.
pub fn push_chunk(alloc: Global, text: &mut Vec<u8>, bytes: &[u8]) -> Result<(), AllocError>
    ensures { OnOk result (text.new.items ≡ text.old.items ++ chunk_text bytes.now) }
{
    let line = format!(in alloc; "{:x}\r\n", bytes.len())?;
    text.reserve(bytes.len().saturating_add(MOST_ADDED))?;
    text.extend_from_slice(line.as_bytes())?;
    text.extend_from_slice(bytes)?;
    text.extend_from_slice(b"\r\n")
}

/// Returns a chunk's text.
fn chunk_of(alloc: Global, bytes: &[u8]) -> Result<Vec<u8>, AllocError>
    ensures { IfOk result (λ text. text.items ≡ chunk_text bytes.now) }
{
    let mut text = Vec::new(alloc);
    push_chunk(alloc, &mut text, bytes)?;
    Ok(text)
}

impl<W: Write + Drop> Writer<W> {
    /// Returns a writer to this device.
    pub fn new(device: Watched<W>) -> Writer<W>
        ensures { result.device ≡ device }
    {
        Writer { device }
    }

    /// Writes bytes as a chunk, and flushes the device. There must be some: a chunk without bytes would end the body. Once a
    /// call of the device has failed nothing more is written, and each call answers that fault; a beginning of the chunk may
    /// then have been written. Out of memory changes nothing, and the chunk may be asked for again.
    pub fn chunk(&mut self, alloc: Global, bytes: &[u8]) -> Result<(), ChunkFault>
        requires { 0 < length bytes.now }
        ensures { Writes (chunk_text bytes.now) W.contents self.old.device self.new.device result }
    {
        if self.device.has_failed() {
            return Err(ChunkFault::Device);
        }
        let text = chunk_of(alloc, bytes)?;
        self.device.write_through(text.as_slice())
    }

    /// Ends the body, and flushes the device. It needs no memory, and fails as `chunk` does where the device fails.
    pub fn end(&mut self) -> Result<(), ChunkFault>
        ensures { WritesInPlace last_chunk W.contents self.old.device self.new.device result }
    {
        if self.device.has_failed() {
            return Err(ChunkFault::Device);
        }
        self.device.write_through(LAST_CHUNK)
    }
}

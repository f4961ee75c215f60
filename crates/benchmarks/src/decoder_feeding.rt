//! Frames that are made, and fed to a decoder.
ghost use Rattle.std.specs.Prelude.{◌≤◌};

use crate::failures::Failure;
use crate::sizes::SHORTEST_FRAME;
use framing::Decoder;
use std::alloc::Global;

/// What stands in a frame before its padding.
const HEAD: &str = "{\"object\":{\"apiVersion\":\"v1\",\"data\":{\"k\":\"";

/// What stands in a frame after its padding.
const TAIL: &str =
    "\"},\"kind\":\"ConfigMap\",\"metadata\":{\"creationTimestamp\":\"2026-01-01T00:00:00Z\",\"name\":\"a\",\"namespace\":\"default\",\"resourceVersion\":\"3\",\"uid\":\"00000000-0000-8000-8000-000000000002\"}},\"type\":\"MODIFIED\"}\n";

/// Returns a frame of this many bytes, its newline counted: a change of a ConfigMap whose data fills it.
fn frame(alloc: Global, size: usize) -> Result<Vec<u8>, Failure>
    requires { SHORTEST_FRAME ≤ size }
{
    let mut bytes = Vec::with_capacity(alloc, size)?;
    bytes.extend_from_slice(HEAD.as_bytes())?;
    bytes.resize(size.saturating_sub(TAIL.len()), b'x')?;
    bytes.extend_from_slice(TAIL.as_bytes())?;
    Ok(bytes)
}

/// Returns as many frames of one size as go into a number of bytes.
pub fn input(alloc: Global, size: usize, total: usize) -> Result<Vec<u8>, Failure>
    requires { SHORTEST_FRAME ≤ size }
{
    let frame = frame(alloc, size)?;
    let mut bytes = Vec::with_capacity(alloc, total)?;
    for _ in 0..total / size {
        bytes.extend_from_slice(frame.as_slice())?;
    }
    Ok(bytes)
}

/// Feeds bytes in pieces of one size, and counts the frames that come out.
pub fn count(alloc: Global, bytes: &[u8], piece: usize) -> Result<u64, Failure>
    requires { 1 ≤ piece }
{
    let mut decoder = Decoder::new(alloc);
    let mut count: u64 = 0;
    for piece in bytes.chunks(piece) {
        let decoded = decoder.feed(alloc, piece)?;
        if decoded.fault.is_some() {
            return Err(Failure::Frame);
        }
        count = count.saturating_add(decoded.frames.len() as u64);
    }
    Ok(count)
}

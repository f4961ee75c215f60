//! Bodies of requests, read from a connection up to their length.
ghost use Rattle.std.specs.Prelude.{◌≡◌, ◌≤◌, ◌<◌, ℕ, List, IfOk, length, take, true, false};
ghost use Rattle.chunked.specs.Devices.{device_of, has_failed};
ghost use Rattle.http_request_head.specs.Reading.{IsWatched};
ghost use Rattle.http_request_reader.specs.Bodies.{Fills, ReadsBody};

use chunked::Watched;
use http_request_head::ReadFault;
use std::alloc::Global;
use std::io::Read;

/// Reads into a body from a place on, until it is full, and returns whether it is: it is not only where the peer ended before.
fn fill<R: Read + Drop>(
    reader: &mut Watched<R>,
    body: &mut [u8],
    front: usize,
) -> Result<bool, ReadFault>
    requires sound { has_failed reader.old ≡ false }
    requires front { front ≤ length body.old }
    ensures fills { Fills (take front body.old) body.new (R.remaining (device_of reader.old)) (R.remaining (device_of reader.new)) result }
    ensures len { length body.new ≡ length body.old }
    ensures watched { IsWatched (has_failed reader.new) result }
{
    let mut filled = front;
    while filled < body.len() {
        match reader.receive(&mut body[filled..]) {
            Ok(0) => return Ok(false),
            Ok(n) => filled += n,
            Err(_) => return Err(ReadFault::Device),
        }
    }
    Ok(true)
}

/// Returns a body of this length that begins with what was read of it before. There is none where the peer ended before it was
/// whole. No more is read than the body.
pub fn read_body<R: Read + Drop>(
    alloc: Global,
    reader: &mut Watched<R>,
    front: &[u8],
    size: usize,
) -> Result<Option<Vec<u8>>, ReadFault>
    requires sound { has_failed reader.old ≡ false }
    requires front { length front.now ≤ size }
    ensures read { ReadsBody front.now size (R.remaining (device_of reader.old)) (R.remaining (device_of reader.new)) result }
    ensures watched { IsWatched (has_failed reader.new) result }
{
    let mut body = Vec::with_capacity(alloc, size)?;
    body.extend_from_slice(front)?;
    body.resize(size, 0)?;
    match fill(reader, &mut body, front.len()) {
        Ok(true) => Ok(Some(body)),
        Ok(false) => Ok(None),
        Err(fault) => Err(fault),
    }
}

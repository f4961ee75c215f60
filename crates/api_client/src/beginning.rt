//! The request for a watch, written, and what comes back.
ghost use Rattle.std.specs.Prelude.{◌≡◌, false};
ghost use Rattle.chunked.specs.Devices.{device_of, has_failed};
ghost use Rattle.api_client.specs.Begun.{IsBegun};

use crate::opened::Opened;
use chunked::Watched;
use http_client::{WatchAnswer, open_watch};
use std::alloc::Global;
use std::io::{Read, Write};

/// Writes the text of a request for a watch, and reads up to where the watch begins, or the head of the reply that refuses it.
pub fn begin_watch<R: Read + Drop, W: Write + Drop>(
    alloc: Global,
    text: &[u8],
    reader: &mut Watched<R>,
    writer: &mut Watched<W>,
) -> Opened
    requires { has_failed writer.old ≡ false }
    ensures begun { IsBegun W.contents text.now (R.remaining (device_of reader.old)) (R.remaining (device_of reader.new))
        writer.old writer.new result }
    ensures sound { result ≡ Opened.Open → has_failed reader.new ≡ false }
{
    match writer.send(text) {
        Ok(()) => {}
        Err(_) => return Opened::Lost,
    }
    match open_watch(alloc, reader) {
        Ok(WatchAnswer::Open) => Opened::Open,
        Ok(WatchAnswer::Expired) => Opened::Expired,
        Ok(WatchAnswer::Refused { code, retry_after }) => Opened::Refused { code, retry_after },
        Err(_) => Opened::Lost,
    }
}

//! Watches, read in pieces.
ghost use Rattle.std.specs.Prelude.{◌≡◌, ◌<◌, length, IfSome};
ghost use Rattle.chunked.specs.Reading.{answered_fault};
ghost use Rattle.http_client.specs.Watches.{IsMore};

use chunked::Reader;
use std::io::Read;

/// What comes next of a watch.
#[derive(Clone, Copy, PartialEq, Eq)]
pub enum More {
    /// This many bytes of its frames, at the front of the buffer.
    Bytes(usize),
    /// Its end: the server has ended it.
    End,
    /// Nothing, now and later: the stream ended or failed before the watch did, or what came is no watch.
    Cut,
}

/// Reads bytes of the frames of a watch, in any pieces.
pub fn read_more<R: Read + Drop>(watch: &mut Reader<R>, buf: &mut [u8]) -> More
    requires room { 0 < length buf.old }
    ensures more { IsMore R.remaining watch.old watch.new buf.new result }
    ensures len { length buf.new ≡ length buf.old }
    ensures again { IfSome (answered_fault watch.old) (λ f. (result ≡ More.Cut) × (watch.new ≡ watch.old)) }
{
    match watch.read(buf) {
        Ok(0) => More::End,
        Ok(n) => More::Bytes(n),
        Err(_) => More::Cut,
    }
}

//! What reads a connection, and notes where what comes is no reply.
ghost use Rattle.std.specs.Prelude.{◌≡◌};
ghost use Rattle.std.specs.Io.{ReadsAtMost};
ghost use Rattle.std.specs.Io.KnownBytes.{ReadConsumes};
ghost use Rattle.kcp_loopback.specs.Heard.{may_begin, may_want_tls, stream_of};

use crate::telling::Teller;
use crate::trouble::Trouble;
use std::io;
use std::io::Read;

/// How each reply begins (RFC 9112, Status Line).
const START: &[u8] = b"HTTP/1.";

/// How that begins which a server of TLS sends to who asks in clear: a reply of HTTP/1.0, or an alert (RFC 8446, Record Layer).
const OLDER_START: &[u8] = b"HTTP/1.0";

const ALERT_START: &[u8] = b"\x15\x03";

/// Reads a stream, whose bytes it passes on as they are, and notes where the first of them are not how a reply begins.
#[derive(Drop)]
pub struct Heard<'a, R, S: Drop> {
    stream: S,
    teller: Teller<'a, R>,
    /// What is still to come of how a reply begins.
    wanted: &'static [u8],
}

/// Returns whether bytes begin with a text, or a text begins with them.
fn may_begin(text: &[u8], bytes: &[u8]) -> bool
    ensures { result ≡ may_begin text.now bytes.now }
{
    let len = text.len().min(bytes.len());
    text.split_at(len).0 == bytes.split_at(len).0
}

/// Returns whether the first bytes that came are such as a port sends that wants TLS.
pub(crate) fn may_want_tls(bytes: &[u8]) -> bool
    ensures { result ≡ may_want_tls bytes.now }
{
    bytes.starts_with(OLDER_START) || bytes.starts_with(ALERT_START)
}

impl<'a, R, S: Drop> Heard<'a, R, S> {
    /// Returns what reads a stream of which nothing has come yet.
    pub(crate) fn new(stream: S, teller: Teller<'a, R>) -> Heard<'a, R, S>
        ensures { stream_of result ≡ stream }
    {
        Heard {
            stream,
            teller,
            wanted: START,
        }
    }
}

impl<R: Eprint, S: Read + Drop> Heard<'_, R, S> {
    /// Looks at the next bytes that came.
    fn hear(&mut self, bytes: &[u8])
        ensures { stream_of self.new ≡ stream_of self.old }
    {
        if self.wanted.len() == START.len() {
            self.teller.note_begun(may_want_tls(bytes));
        }
        if may_begin(self.wanted, bytes) {
            self.wanted = self.wanted.get(bytes.len()..).unwrap_or(b"");
        } else {
            let begun = START.len().saturating_sub(self.wanted.len());
            self.wanted = b"";
            let begun = START.get(..begun).unwrap_or(b"");
            self.teller
                .note_not_understood(Trouble::NoReply, begun, bytes);
        }
    }
}

impl<R: Eprint, S: Read + Drop> Read for Heard<'_, R, S> {
    ghost remaining = { λ h. S.remaining (stream_of h) };

    fn read(&mut self, buf: &mut [u8]) -> io::Result<usize>
        ensures bound { ReadsAtMost result buf.new }
        ensures bytes { ReadConsumes (S.remaining (stream_of self.old)) (S.remaining (stream_of self.new)) result buf.new }
    {
        let count = self.stream.read(buf)?;
        if let Some(bytes) = buf.get(..count) {
            self.hear(bytes);
        }
        Ok(count)
    }
}

//! Chunks read in pieces of any size, from devices that fail or are interrupted, and from texts that are none.
use chunked::{ChunkFault, Reader, Watched};
use std::io::{ErrorKind, Read};
use test_fixtures::Source;

/// Two chunks, the second with an extension, the end, and what follows the body.
const BODY: &[u8] = b"4\r\nWiki\r\nB;a=\"b\"\r\npedia in ch\r\n0\r\n\r\nnext";

/// Its content.
const CONTENT: &[u8] = b"Wikipedia in ch";

/// A call that never comes.
const NEVER: u64 = u64::MAX;

/// Returns a device that fails, in this way, at this call.
fn failing(text: &[u8], most: usize, bad: u64, kind: ErrorKind) -> Watched<Source<'_>> {
    let mut source = Source::new(text, most);
    source.bad = bad;
    source.kind = kind;
    Watched::new(source)
}

/// Reads in pieces of at most this size, up to the end, a fault, or what is not this content. Returns what is left of the content, and
/// what the last read gave.
pub(crate) fn read_all<'a>(
    reader: &mut Reader<Source<'_>>,
    size: usize,
    content: &'a [u8],
) -> (&'a [u8], Result<usize, ChunkFault>) {
    let mut left = content;
    let mut buf = [0u8; 16];
    let room = size.min(16);
    for _ in 0..100 {
        match reader.read(&mut buf[..room]) {
            Ok(n) if 0 < n && left.starts_with(&buf[..n]) => left = left.split_at(n).1,
            last => return (left, last),
        }
    }
    (left, Ok(1))
}

/// In pieces of which size the body is read and given, and at which call the device is interrupted.
const PIECES: [(usize, usize, u64); 10] = [
    (1, 1, NEVER),
    (1, 5, NEVER),
    (1, 100, NEVER),
    (3, 1, NEVER),
    (3, 5, NEVER),
    (3, 100, NEVER),
    (16, 1, NEVER),
    (16, 5, NEVER),
    (16, 100, NEVER),
    (16, 100, 3),
];

/// Returns whether the body is read, nothing is read after it, and no more is taken.
fn is_read(size: usize, most: usize, bad: u64) -> bool {
    let mut reader = Reader::new(failing(BODY, most, bad, ErrorKind::Interrupted));
    let found = read_all(&mut reader, size, CONTENT);
    let again = reader.read(&mut [0; 4]);
    let is_whole = found.0.is_empty() && found.1 == Ok(0) && again == Ok(0);
    is_whole && reader.device.into_inner().left == b"next".as_slice()
}

/// Returns the first of the pieces in which the body is not read.
fn first_unread() -> Option<usize> {
    for (place, piece) in PIECES.iter().enumerate() {
        if !is_read(piece.0, piece.1, piece.2) {
            return Some(place);
        }
    }
    None
}

#[test]
fn a_body_is_read_in_any_pieces(rt: HostRuntime) {
    assert_eq!(rt; first_unread(), None);
}

/// A size that is longer than any may be.
const LONG: [u8; 300] = [b'1'; 300];

/// What is no body, or not the whole of one, the content that it has, and how it ends.
const OTHERS: [(&[u8], &[u8], ChunkFault); 10] = [
    (b"1g", b"", ChunkFault::Malformed),
    (b"1\na\r\n0\r\n\r\n", b"", ChunkFault::Malformed),
    (b"\r\n", b"", ChunkFault::Malformed),
    (b"0\r\nx: y\r\n\r\n", b"", ChunkFault::Malformed),
    (&LONG, b"", ChunkFault::Malformed),
    (b"", b"", ChunkFault::Truncated),
    (b"1", b"", ChunkFault::Truncated),
    (b"4\r\nWi", b"Wi", ChunkFault::Truncated),
    (b"4\r\nWiki\r", b"Wiki", ChunkFault::Truncated),
    (b"4\r\nWiki\r\n0\r\n", b"Wiki", ChunkFault::Truncated),
];

/// Returns whether a text ends so, also for who reads again, and its device has not failed.
fn ends_so(text: &[u8], content: &[u8], fault: ChunkFault) -> bool {
    let mut reader = Reader::new(Watched::new(Source::new(text, 100)));
    let found = read_all(&mut reader, 16, content);
    let again = reader.read(&mut [0; 4]);
    let is_refused = found.0.is_empty() && found.1 == Err(fault) && again == Err(fault);
    is_refused && !reader.device.has_failed()
}

/// Returns the first of the other texts that does not end as it has to.
fn first_accepted() -> Option<usize> {
    for (place, other) in OTHERS.iter().enumerate() {
        if !ends_so(other.0, other.1, other.2) {
            return Some(place);
        }
    }
    None
}

#[test]
fn other_texts_are_refused(rt: HostRuntime) {
    assert_eq!(rt; first_accepted(), None);
}

/// Returns whether a failed call is told, also to who reads again, and is the last that is made. Where the failure is up, it came before
/// the body is read.
fn is_told(bad: u64, is_up: bool) -> bool {
    let mut device = failing(BODY, 3, bad, ErrorKind::BrokenPipe);
    if is_up {
        let _ = device.read(&mut [0; 1]);
    }
    let mut reader = Reader::new(device);
    let found = read_all(&mut reader, 4, CONTENT);
    let again = reader.read(&mut [0; 4]);
    let fault = Err(ChunkFault::Device);
    let is_told = found.1 == fault && again == fault && reader.device.has_failed();
    is_told && reader.device.into_inner().calls == bad.saturating_add(1)
}

/// Returns the first failure that is not told.
fn first_untold() -> Option<usize> {
    for (place, &(bad, is_up)) in [(0, false), (2, false), (4, false), (6, false), (0, true)]
        .iter()
        .enumerate()
    {
        if !is_told(bad, is_up) {
            return Some(place);
        }
    }
    None
}

#[test]
fn a_failed_call_is_answered_from_then_on(rt: HostRuntime) {
    assert_eq!(rt; first_untold(), None);
}

//! Watches over readers of whose bytes no contract speaks.
use chunked::{Reader, Watched};
use http_client::{More, ReplyFault, WatchAnswer, open_watch, read_more};
use std::alloc::Global;
use test_fixtures::Source;

/// A watch with two frames, and what follows it.
const WATCH: &[u8] =
    b"HTTP/1.1 200 OK\r\nContent-Type: application/json\r\nTransfer-Encoding: chunked\r\nConnection: close\r\n\r\n8\r\n{\"a\":1}\n\r\n9\r\n{\"b\":22}\n\r\n0\r\n\r\nrest";

/// Its frames.
const FRAMES: &[u8] = b"{\"a\":1}\n{\"b\":22}\n";

/// How many bytes follow it.
const REST: usize = 4;

/// What a server writes where a watch begins too far back.
const GONE: &[u8] = b"HTTP/1.1 410 Gone\r\nContent-Length: 2\r\n\r\n{}";

/// Opens the watch of a source.
fn opening(alloc: Global, text: &[u8], most: usize) -> Result<WatchAnswer, ReplyFault> {
    open_watch(alloc, &mut Watched::new(Source::new(text, most)))
}

/// Opens the watch of a source, and reads it to its end or cut, or to what is none of its frames. Returns how that ended, and how much of
/// the frames is left.
fn watched(alloc: Global, source: Source<'_>) -> (More, usize) {
    let mut reader = Watched::new(source);
    let mut left = FRAMES;
    if open_watch(alloc, &mut reader) != Ok(WatchAnswer::Open) {
        return (More::Cut, left.len());
    }
    let mut watch = Reader::new(reader);
    let mut buf = [0u8; 5];
    for _ in 0..100 {
        match read_more(&mut watch, &mut buf) {
            More::Bytes(n) if left.starts_with(&buf[..n.min(5)]) => left = left
                .split_at(n.min(5))
                .1,
            last => return (last, left.len()),
        }
    }
    (More::Bytes(0), left.len())
}

/// Returns the first size of the pieces in which the watch is not read.
fn first_unread(alloc: Global) -> Option<usize> {
    for most in [1, 2, 3, 50, 4096] {
        if watched(alloc, Source::new(WATCH, most)) != (More::End, 0) {
            return Some(most);
        }
    }
    None
}

#[test]
fn a_watch_is_read_in_any_pieces(rt: HostRuntime) {
    assert_eq!(rt; first_unread(rt.alloc()), None);
}

/// Returns the first length at which the watch is cut and has an end all the same.
fn first_ended(alloc: Global) -> Option<usize> {
    for len in 0..WATCH.len() - REST {
        if watched(alloc, Source::new(&WATCH[..len], 9)).0 != More::Cut {
            return Some(len);
        }
    }
    None
}

#[test]
fn a_watch_that_is_cut_has_no_end(rt: HostRuntime) {
    assert_eq!(rt; first_ended(rt.alloc()), None);
}

/// Answers to who asks for a watch, and what they come to: the head says it, however the body comes, and whether it does.
const REFUSALS: [(&[u8], Result<WatchAnswer, ReplyFault>); 5] = [
    (GONE, Ok(WatchAnswer::Expired)),
    (
        b"HTTP/1.1 504 Gateway Timeout\r\nTransfer-Encoding: chunked\r\n\r\n2\r\n{}\r\n0\r\n\r\n",
        Ok(WatchAnswer::Refused {
            code: 504,
            retry_after: None,
        }),
    ),
    (
        b"HTTP/1.1 410 Gone\r\nContent-Length: 67108865\r\n\r\n",
        Ok(WatchAnswer::Expired),
    ),
    (
        b"HTTP/1.1 200 OK\r\nContent-Length: 2\r\n\r\n{}",
        Ok(WatchAnswer::Refused {
            code: 200,
            retry_after: None,
        }),
    ),
    (b"", Err(ReplyFault::NotAReply)),
];

/// Returns the first reply that comes to something else.
fn first_unlike(alloc: Global) -> Option<usize> {
    for (place, &(text, wanted)) in REFUSALS.iter().enumerate() {
        if opening(alloc, text, 3) != wanted {
            return Some(place);
        }
    }
    None
}

#[test]
fn a_watch_is_refused(rt: HostRuntime) {
    assert_eq!(rt; first_unlike(rt.alloc()), None);
}

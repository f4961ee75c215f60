//! Requests written to writers that fail or are interrupted, and replies that are cut, of whose bytes no contract speaks.
use chunked::Watched;
use http_client::{Answer, LARGEST_BODY, Outgoing, call};
use std::alloc::Global;
use std::io::ErrorKind;
use test_fixtures::{Source, TestSink};

/// A reply.
const CREATED: &[u8] = b"HTTP/1.1 201 Created\r\nContent-Length: 2\r\n\r\n{}";

/// A create, as it is written.
const CREATE: &[u8] =
    b"POST /api/v1/namespaces/a/pods HTTP/1.1\r\nHost: localhost\r\nContent-Type: application/json\r\nContent-Length: 2\r\nConnection: close\r\n\r\n{}";

/// A call that never comes.
const NEVER: u64 = u64::MAX;

/// Returns what becomes of a create, in a word.
fn word(answer: &Answer) -> &'static str {
    match answer {
        Answer::Replied(reply) if reply.code == 201 => "created",
        Answer::Replied(_) => "another reply",
        Answer::NotSent => "not sent",
        Answer::Lost => "lost",
    }
}

/// Writes a create to this writer. Returns what becomes of it, in a word.
fn called(alloc: Global, reply: &[u8], writer: &mut Watched<TestSink>) -> &'static str {
    let request = Outgoing {
        method: "POST",
        target: "/api/v1/namespaces/a/pods",
        host: "localhost",
        media_type: "application/json",
        body: b"{}",
    };
    let source = Watched::new(Source::new(reply, 3));
    word(&call(alloc, request, source, writer, LARGEST_BODY))
}

/// Writes a create to a writer that fails, in this way, at this call. Returns what becomes of it, in a word, and what was written of it.
fn create(alloc: Global, reply: &[u8], bad: u64, kind: ErrorKind) -> (&'static str, Vec<u8>) {
    let mut writer = Watched::new(TestSink {
        written: Vec::new(alloc),
        bad,
        kind,
        calls: 0,
    });
    let word = called(alloc, reply, &mut writer);
    (word, writer.into_inner().written)
}

/// Returns whether the request is lost where this call fails, with a beginning of it written.
fn is_lost(alloc: Global, bad: u64) -> bool {
    let (word, written) = create(alloc, CREATED, bad, ErrorKind::BrokenPipe);
    word == "lost" && CREATE.starts_with(&written)
}

/// Returns whether what becomes of a whole request is this, in a word.
fn is_written(alloc: Global, reply: &[u8], bad: u64, kind: ErrorKind, wanted: &str) -> bool {
    let (word, written) = create(alloc, reply, bad, kind);
    word == wanted && written.as_slice() == CREATE
}

/// Returns the first call whose failure does not lose the request, with a beginning of it written, or whose interruption does not leave it
/// whole.
fn first_unwritten(alloc: Global) -> Option<u64> {
    for bad in 0..10 {
        let is_whole = is_written(alloc, CREATED, bad, ErrorKind::Interrupted, "created");
        if !is_lost(alloc, bad) || !is_whole {
            return Some(bad);
        }
    }
    None
}

#[test]
fn a_request_is_lost_where_the_writer_fails(rt: HostRuntime) {
    assert_eq!(rt; first_unwritten(rt.alloc()), None);
}

/// Returns the first length at which a reply that is cut does not lose the request, which was written; the last is that of the whole
/// reply, which is not lost.
fn first_unlike(alloc: Global) -> Option<usize> {
    for len in 0..=CREATED.len() {
        let wanted = if len < CREATED.len() {
            "lost"
        } else {
            "created"
        };
        if !is_written(alloc, &CREATED[..len], NEVER, ErrorKind::BrokenPipe, wanted) {
            return Some(len);
        }
    }
    None
}

#[test]
fn a_request_is_lost_where_its_reply_is_cut(rt: HostRuntime) {
    assert_eq!(rt; first_unlike(rt.alloc()), None);
}

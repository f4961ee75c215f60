//! Heads over a reader that fails at each of its calls.
use chunked::Watched;
use http_request_head::ReadFault;
use http_request_head::reading::read_head;
use httparse::spans::EMPTY_HEADER_SPAN;
use std::alloc::Global;
use test_fixtures::Source;

/// A head, and the beginning of a body.
const POST: &[u8] = b"POST /api/v1/pods HTTP/1.1\r\nHost: a\r\ncontent-length:  4 \r\n\r\n{}";

/// Returns whether reading fails at this call of the reader, and again without one, and leaves what was read.
fn fails_at(alloc: Global, bad: u64) -> bool {
    let mut bytes = Vec::new(alloc);
    let mut fields = [EMPTY_HEADER_SPAN; 64];
    let mut source = Source::new(POST, 1);
    source.bad = bad;
    let mut reader = Watched::new(source);
    let first = read_head(&mut reader, &mut bytes, &mut fields);
    let again = read_head(&mut reader, &mut bytes, &mut fields);
    let fault = Err(ReadFault::Device);
    first == fault && again == fault && bytes.len() as u64 == bad && reader.has_failed()
}

/// Returns the first call of the head's 60 at which reading does not fail so.
fn first_unlike(alloc: Global) -> Option<u64> {
    for bad in 0..60 {
        if !fails_at(alloc, bad) {
            return Some(bad);
        }
    }
    None
}

#[test]
fn failures_are_the_readers(rt: HostRuntime) {
    assert_eq!(rt; first_unlike(rt.alloc()), None);
}

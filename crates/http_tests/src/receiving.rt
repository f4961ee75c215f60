//! Requests over readers of whose bytes no contract speaks: no byte is read beyond what decides, and who is interrupted reads again.
use chunked::Watched;
use http_request_head::ReadFault;
use http_request_reader::{Received, receive};
use object_keys::Fault;
use request_decoding::Asked;
use request_parts::Request;
use request_parts::table::Routes;
use spec_api::kinds::Kind;
use std::alloc::{AllocError, Global};
use std::io::ErrorKind;
use test_fixtures::Source;

/// A create, whose body ends before the last byte.
const CREATE: &[u8] =
    b"POST /api/v1/namespaces/a/pods HTTP/1.1\r\nContent-Length: 25\r\n\r\n{\"metadata\":{\"name\":\"a\"}}x";

/// A text, what is received of it, in a word, and how many bytes are left.
const TEXTS: [(&[u8], &str, usize); 6] = [
    (CREATE, "create", 1),
    (
        b"POST /api/v1/namespaces/a/pods HTTP/1.1\r\nContent-Length: 25\r\n\r\n{\"metadata\":",
        "nothing",
        0,
    ),
    (b"GET /api/v1/pods HTTP/1.1\r\n\r\nmore", "list", 4),
    (
        b"POST /api/v1/namespaces/a/pods HTTP/1.1\r\nContent-Length: 1048577\r\n\r\n{",
        "too large",
        1,
    ),
    // no text that follows makes it a head, from the blank after the name of its field on
    (b"GET / HTTP/1.1\r\nA : b", "bad request", 3),
    (b"", "nothing", 0),
];

/// Returns whether a request is a create of a pod.
fn is_create(request: &Request) -> bool {
    matches!(request, Request::Create(Kind::Pod, _, _))
}

/// Returns what is asked, in a word.
fn asked_in_a_word(asked: &Asked) -> &'static str {
    match asked {
        Asked::Request(request) if is_create(request) => "create",
        Asked::List { .. } => "list",
        _ => "something else",
    }
}

/// Returns what was received, in a word.
fn in_a_word(received: &Received) -> &'static str {
    match received {
        Received::Asked(asked) => asked_in_a_word(asked),
        Received::Refused(Fault::TooLarge) => "too large",
        Received::Refused(Fault::BadRequest(_)) => "bad request",
        Received::Refused(_) => "another refusal",
        Received::Ended => "nothing",
    }
}

/// Returns what is received, in a word.
fn word_received(
    alloc: Global,
    routes: &Routes,
    reader: &mut Watched<Source<'_>>,
) -> Result<&'static str, ReadFault> {
    Ok(in_a_word(&receive(alloc, routes, reader)?))
}

/// Returns whether this is received of a text that comes a byte a call, with this call interrupted, and so many bytes are left.
fn is_received(
    alloc: Global,
    routes: &Routes,
    text: &(&[u8], &str, usize),
    interrupted: u64,
) -> bool {
    let mut source = Source::new(text.0, 1);
    source.bad = interrupted;
    source.kind = ErrorKind::Interrupted;
    let mut reader = Watched::new(source);
    let word = word_received(alloc, routes, &mut reader);
    word == Ok(text.1) && reader.into_inner().left.len() == text.2
}

/// Returns the first text of which something else is received.
fn first_unlike(alloc: Global) -> Result<Option<usize>, AllocError> {
    let routes = Routes::new(alloc)?;
    for (place, text) in TEXTS.iter().enumerate() {
        if !is_received(alloc, &routes, text, u64::MAX) {
            return Ok(Some(place));
        }
    }
    Ok(None)
}

#[test]
fn none_is_read_beyond_what_decides(rt: HostRuntime) {
    assert_eq!(rt; first_unlike(rt.alloc()), Ok(None));
}

/// Returns the first call whose interruption changes what is received of the create.
fn first_lost(alloc: Global) -> Result<Option<u64>, AllocError> {
    let routes = Routes::new(alloc)?;
    for interrupted in 0..CREATE.len() as u64 {
        if !is_received(alloc, &routes, &TEXTS[0], interrupted) {
            return Ok(Some(interrupted));
        }
    }
    Ok(None)
}

#[test]
fn interrupted_reads_are_made_again(rt: HostRuntime) {
    assert_eq!(rt; first_lost(rt.alloc()), Ok(None));
}

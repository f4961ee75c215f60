//! Connections that go on in steps, a byte read and four written at a time: they are written what `serve_one` writes.
use crate::sites::{CREATE, LIST, empty, serve};
use crate::steps::{asked, close, looked, sink, written};
use api::Solo;
use http_connection::ConnectionPhase;
use request_parts::table::Routes;
use std::alloc::{AllocError, Global};
use test_fixtures::{Source, TestSink};

/// A create of the ConfigMap `b`.
const CREATE_ANOTHER: &[u8] =
    b"POST /api/v1/namespaces/default/configmaps HTTP/1.1\r\nContent-Length: 25\r\n\r\n{\"metadata\":{\"name\":\"b\"}}";

/// A watch of the ConfigMaps of all namespaces, from before both.
const WATCH: &[u8] = b"GET /api/v1/configmaps?watch=true&resourceVersion=1 HTTP/1.1\r\n\r\n";

/// The first page of a list of the ConfigMaps of all namespaces, of one object.
const PAGE: &[u8] = b"GET /api/v1/configmaps?limit=1 HTTP/1.1\r\n\r\n";

/// Returns what `serve_one` writes for a text.
fn at_once(alloc: Global, routes: &Routes, site: &mut Solo, text: &[u8]) -> Vec<u8> {
    serve(alloc, routes, site, Source::new(text, 4096), sink(alloc)).1
}

/// Returns what is written in steps for a text.
fn in_steps(alloc: Global, routes: &Routes, site: &mut Solo, text: &[u8]) -> Vec<u8> {
    let mut taken = sink(alloc);
    let phase = asked(alloc, routes, site, text, 1, &mut taken);
    close(written(alloc, routes, phase, 1, &mut taken));
    taken.written
}

/// Returns what is written in steps for a text at a server where nothing is there.
fn in_steps_at_first(alloc: Global, routes: &Routes, text: &[u8]) -> Result<Vec<u8>, AllocError> {
    Ok(in_steps(alloc, routes, &mut empty(alloc)?, text))
}

/// Returns what is written at once for a text at a server where nothing is there.
fn at_once_at_first(alloc: Global, routes: &Routes, text: &[u8]) -> Result<Vec<u8>, AllocError> {
    Ok(at_once(alloc, routes, &mut empty(alloc)?, text))
}

/// Returns whether a create in steps is replied what it is at once.
fn is_replied_alike(alloc: Global) -> Result<bool, AllocError> {
    let routes = Routes::new(alloc)?;
    let steps = in_steps_at_first(alloc, &routes, CREATE)?;
    let once = at_once_at_first(alloc, &routes, CREATE)?;
    Ok(steps.as_slice() == once.as_slice() && steps.starts_with(b"HTTP/1.1 201"))
}

#[test]
fn a_request_that_comes_byte_by_byte_is_answered(rt: HostRuntime) {
    assert_eq!(rt; is_replied_alike(rt.alloc()), Ok(true));
}

/// Makes two creates.
fn fill(alloc: Global, routes: &Routes, site: &mut Solo) {
    for create in [CREATE, CREATE_ANOTHER] {
        let _replied = at_once(alloc, routes, site, create);
    }
}

/// Returns whether what is written in steps for a text, which is a success, is what is written at once.
fn is_alike(alloc: Global, routes: &Routes, site: &mut Solo, text: &[u8]) -> bool {
    let steps = in_steps(alloc, routes, site, text);
    let once = at_once(alloc, routes, site, text);
    steps.as_slice() == once.as_slice() && steps.starts_with(b"HTTP/1.1 200")
}

/// Returns whether a list that is made as it is written is what is written of it at once.
fn is_listed_alike(alloc: Global, text: &[u8]) -> Result<bool, AllocError> {
    let routes = Routes::new(alloc)?;
    let mut site = empty(alloc)?;
    fill(alloc, &routes, &mut site);
    Ok(is_alike(alloc, &routes, &mut site, text))
}

#[test]
fn a_list_is_made_as_it_is_written(rt: HostRuntime) {
    assert_eq!(rt; is_listed_alike(rt.alloc(), LIST), Ok(true));
}

#[test]
fn a_page_is_made_as_it_is_written(rt: HostRuntime) {
    assert_eq!(rt; is_listed_alike(rt.alloc(), PAGE), Ok(true));
}

/// Makes a create in steps, and lets a connection of a watch be given a look and be written.
fn after_create(
    alloc: Global,
    routes: &Routes,
    site: &mut Solo,
    create: &[u8],
    phase: ConnectionPhase,
    taken: &mut TestSink,
) -> ConnectionPhase {
    let _replied = in_steps(alloc, routes, site, create);
    let phase = looked(alloc, phase, site);
    written(alloc, routes, phase, 1, taken)
}

/// Gives looks up to the end of a watch, and lets it be written. Returns whether it has ended.
fn is_ended(
    alloc: Global,
    routes: &Routes,
    site: &mut Solo,
    phase: ConnectionPhase,
    taken: &mut TestSink,
) -> bool {
    let mut phase = phase;
    for _ in 0..1025 {
        phase = looked(alloc, phase, site);
    }
    close(written(alloc, routes, phase, 1, taken))
}

/// Returns whether a watch that was given a look after each of two creates, and more up to its end, has ended, and what was written of it.
fn watched_in_steps(alloc: Global, routes: &Routes, site: &mut Solo) -> (bool, Vec<u8>) {
    let mut taken = sink(alloc);
    let opened = asked(alloc, routes, site, WATCH, 1, &mut taken);
    let first = after_create(alloc, routes, site, CREATE, opened, &mut taken);
    let second = after_create(alloc, routes, site, CREATE_ANOTHER, first, &mut taken);
    let is_over = is_ended(alloc, routes, site, second, &mut taken);
    (is_over, taken.written)
}

/// Returns whether a watch is written in steps what it is at once.
fn is_watched_so(alloc: Global, routes: &Routes, site: &mut Solo) -> bool {
    let (is_over, steps) = watched_in_steps(alloc, routes, site);
    let once = at_once(alloc, routes, site, WATCH);
    is_over && steps.as_slice() == once.as_slice()
}

/// Returns whether a watch is written in steps what it is at once, at a server where nothing was.
fn is_watched_alike(alloc: Global) -> Result<bool, AllocError> {
    let routes = Routes::new(alloc)?;
    Ok(is_watched_so(alloc, &routes, &mut empty(alloc)?))
}

#[test]
fn a_watch_is_written_after_each_look(rt: HostRuntime) {
    assert_eq!(rt; is_watched_alike(rt.alloc()), Ok(true));
}

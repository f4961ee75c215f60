//! Connections whose reader or writer fails at each of its calls in turn, and requests whose growths are refused.
use crate::sites::{CREATE, LIST, NEVER, breaking, empty, serve};
use api::{ServeFault, Served, Solo};
use request_parts::table::Routes;
use std::alloc::{AllocError, Global};
use test_fixtures::Source;

/// The reply to a list of the ConfigMaps where nothing is there.
const NOTHING: &[u8] =
    b"HTTP/1.1 200 OK\r\nContent-Type: application/json\r\nContent-Length: 88\r\nConnection: close\r\n\r\n{\"apiVersion\":\"v1\",\"items\":[],\"kind\":\"ConfigMapList\",\"metadata\":{\"resourceVersion\":\"1\"}}";

/// The reply to a create of `a`, where it is the first write.
const CREATED: &[u8] =
    b"HTTP/1.1 201 Created\r\nContent-Type: application/json\r\nContent-Length: 211\r\nConnection: close\r\n\r\n{\"apiVersion\":\"v1\",\"data\":{\"k\":\"v\"},\"kind\":\"ConfigMap\",\"metadata\":{\"creationTimestamp\":\"2026-01-01T00:00:00Z\",\"name\":\"a\",\"namespace\":\"default\",\"resourceVersion\":\"2\",\"uid\":\"00000000-0000-8000-8000-000000000002\"}}";

/// A get of `a`.
const GET: &[u8] = b"GET /api/v1/namespaces/default/configmaps/a HTTP/1.1\r\n\r\n";

/// The reply to it where `a` is there, the first write.
const FOUND: &[u8] =
    b"HTTP/1.1 200 OK\r\nContent-Type: application/json\r\nContent-Length: 211\r\nConnection: close\r\n\r\n{\"apiVersion\":\"v1\",\"data\":{\"k\":\"v\"},\"kind\":\"ConfigMap\",\"metadata\":{\"creationTimestamp\":\"2026-01-01T00:00:00Z\",\"name\":\"a\",\"namespace\":\"default\",\"resourceVersion\":\"2\",\"uid\":\"00000000-0000-8000-8000-000000000002\"}}";

/// The reply where memory ran out.
const NO_MEMORY: &[u8] =
    b"HTTP/1.1 503 Service Unavailable\r\nContent-Type: application/json\r\nContent-Length: 131\r\nConnection: close\r\n\r\n{\"apiVersion\":\"v1\",\"code\":503,\"kind\":\"Status\",\"message\":\"no memory\",\"metadata\":{},\"reason\":\"ServiceUnavailable\",\"status\":\"Failure\"}";

/// Serves a connection with room for a reply, whose text comes a byte a call, and whose reader and writer fail at these calls. Returns how
/// it is left, and what was written.
fn serve_failing(
    alloc: Global,
    routes: &Routes,
    site: &mut Solo,
    text: &[u8],
    bad: (u64, u64),
) -> Result<(Result<Served, ServeFault>, Vec<u8>), AllocError> {
    let room = Vec::with_capacity(alloc, 1024)?;
    let mut source = Source::new(text, 1);
    source.bad = bad.0;
    Ok(serve(alloc, routes, site, source, breaking(room, bad.1)))
}

/// Returns whether the reply to a text is this one.
fn replies(
    alloc: Global,
    routes: &Routes,
    site: &mut Solo,
    text: &[u8],
    reply: &[u8],
) -> Result<bool, AllocError> {
    let (outcome, written) = serve_failing(alloc, routes, site, text, (NEVER, NEVER))?;
    Ok(outcome.is_ok() && written.as_slice() == reply)
}

/// Returns whether a connection whose reader fails at this call is left for that, with nothing written.
fn is_unanswered(
    alloc: Global,
    routes: &Routes,
    site: &mut Solo,
    text: &[u8],
    bad: u64,
) -> Result<bool, AllocError> {
    let (outcome, written) = serve_failing(alloc, routes, site, text, (bad, NEVER))?;
    Ok(outcome == Err(ServeFault::Read) && written.is_empty())
}

/// Returns whether a connection is left where its reader fails at this call, with nothing written and nothing there.
fn is_left_by_its_reader(
    alloc: Global,
    routes: &Routes,
    site: &mut Solo,
    text: &[u8],
    bad: u64,
) -> Result<bool, AllocError> {
    let is_left = is_unanswered(alloc, routes, site, text, bad)?;
    Ok(is_left && replies(alloc, routes, site, LIST, NOTHING)?)
}

/// Returns the first call at which a failing reader of a text does not leave nothing.
fn first_call_unread(
    alloc: Global,
    routes: &Routes,
    text: &[u8],
) -> Result<Option<u64>, AllocError> {
    for bad in 0..text.len() as u64 {
        if !is_left_by_its_reader(alloc, routes, &mut empty(alloc)?, text, bad)? {
            return Ok(Some(bad));
        }
    }
    Ok(None)
}

/// Returns the first request and call at which a failing reader does not leave nothing.
fn first_text_unread(alloc: Global, routes: &Routes) -> Result<Option<(usize, u64)>, AllocError> {
    for (place, text) in [LIST, CREATE].iter().enumerate() {
        if let Some(bad) = first_call_unread(alloc, routes, text)? {
            return Ok(Some((place, bad)));
        }
    }
    Ok(None)
}

/// Returns the same of a table of paths that is made here.
fn first_unread(alloc: Global) -> Result<Option<(usize, u64)>, AllocError> {
    let routes = Routes::new(alloc)?;
    first_text_unread(alloc, &routes)
}

#[test]
fn a_request_whose_reader_fails_is_not_done(rt: HostRuntime) {
    assert_eq!(rt; first_unread(rt.alloc()), Ok(None));
}

/// A request, its reply, and whether `a` is there once it is done.
const ASKED: [(&[u8], &[u8], bool); 2] = [(LIST, NOTHING, false), (CREATE, CREATED, true)];

/// Returns whether a connection whose writer fails at this call is left for that, with a beginning of the reply written.
fn is_begun(
    alloc: Global,
    routes: &Routes,
    site: &mut Solo,
    asked: &(&[u8], &[u8], bool),
    bad: u64,
) -> Result<bool, AllocError> {
    let (outcome, written) = serve_failing(alloc, routes, site, asked.0, (NEVER, bad))?;
    Ok(outcome == Err(ServeFault::Write) && asked.1.starts_with(&written))
}

/// Returns whether a connection is left where its writer fails at this call, with a beginning of the reply written and its request done.
fn is_left_by_its_writer(
    alloc: Global,
    routes: &Routes,
    site: &mut Solo,
    asked: &(&[u8], &[u8], bool),
    bad: u64,
) -> Result<bool, AllocError> {
    let is_left = is_begun(alloc, routes, site, asked, bad)?;
    Ok(is_left && replies(alloc, routes, site, GET, FOUND)? == asked.2)
}

/// Returns how many calls it takes to write a text: those that write, and the one that flushes.
fn calls_to_write(text: &[u8]) -> u64 {
    (text.len().div_ceil(4) as u64).saturating_add(1)
}

/// Returns the first call at which a failing writer does not leave a request begun and done.
fn first_call_unwritten(
    alloc: Global,
    routes: &Routes,
    asked: &(&[u8], &[u8], bool),
) -> Result<Option<u64>, AllocError> {
    for bad in 0..calls_to_write(asked.1) {
        if !is_left_by_its_writer(alloc, routes, &mut empty(alloc)?, asked, bad)? {
            return Ok(Some(bad));
        }
    }
    Ok(None)
}

/// Returns the first request and call at which a failing writer does not leave it begun and done.
fn first_text_unwritten(
    alloc: Global,
    routes: &Routes,
) -> Result<Option<(usize, u64)>, AllocError> {
    for (place, asked) in ASKED.iter().enumerate() {
        if let Some(bad) = first_call_unwritten(alloc, routes, asked)? {
            return Ok(Some((place, bad)));
        }
    }
    Ok(None)
}

/// Returns the same of a table of paths that is made here.
fn first_unwritten(alloc: Global) -> Result<Option<(usize, u64)>, AllocError> {
    let routes = Routes::new(alloc)?;
    first_text_unwritten(alloc, &routes)
}

#[test]
fn a_request_whose_writer_fails_is_done(rt: HostRuntime) {
    assert_eq!(rt; first_unwritten(rt.alloc()), Ok(None));
}

/// Returns whether no reader and no writer is called beyond what a create and its reply need.
fn is_created_within(alloc: Global, routes: &Routes, site: &mut Solo) -> Result<bool, AllocError> {
    let bad = (CREATE.len() as u64, calls_to_write(CREATED));
    let (outcome, written) = serve_failing(alloc, routes, site, CREATE, bad)?;
    Ok(outcome == Ok(Served::Asked) && written.as_slice() == CREATED)
}

/// Returns the same of a server where nothing is there.
fn none_is_called_beyond(alloc: Global) -> Result<bool, AllocError> {
    let routes = Routes::new(alloc)?;
    let mut site = empty(alloc)?;
    is_created_within(alloc, &routes, &mut site)
}

#[test]
fn a_call_that_never_comes_fails_nothing(rt: HostRuntime) {
    assert_eq!(rt; none_is_called_beyond(rt.alloc()), Ok(true));
}

/// Returns whether the reply to a text is this one, or nothing where it is that memory ran out.
fn first_reply(
    alloc: Global,
    routes: &Routes,
    site: &mut Solo,
    text: &[u8],
    reply: &[u8],
) -> Result<Option<bool>, AllocError> {
    let (outcome, written) = serve_failing(alloc, routes, site, text, (NEVER, NEVER))?;
    let is_poor = outcome.is_ok() && written.as_slice() == NO_MEMORY;
    let is_wanted = outcome.is_ok() && written.as_slice() == reply;
    Ok(if is_poor { None } else { Some(is_wanted) })
}

/// Returns whether who asks has this reply, or where it is that memory ran out, has it once more is asked.
fn is_answered(
    alloc: Global,
    routes: &Routes,
    site: &mut Solo,
    text: &[u8],
    reply: &[u8],
) -> Result<bool, AllocError> {
    match first_reply(alloc, routes, site, text, reply)? {
        Some(is_wanted) => Ok(is_wanted),
        None => replies(alloc, routes, site, text, reply),
    }
}

/// Returns whether a create is answered, and a get after it.
fn both_are_answered(alloc: Global, routes: &Routes, site: &mut Solo) -> Result<bool, AllocError> {
    let is_created = is_answered(alloc, routes, site, CREATE, CREATED)?;
    Ok(is_created && is_answered(alloc, routes, site, GET, FOUND)?)
}

/// Returns the same of a server where nothing is there.
fn all_are_answered(alloc: Global) -> Result<bool, AllocError> {
    let routes = Routes::new(alloc)?;
    let mut site = empty(alloc)?;
    both_are_answered(alloc, &routes, &mut site)
}

// Each allocation is refused in turn by a run of its own: what is replied is then that memory ran out, and who asks again is answered.
#[test]
fn who_asks_again_is_answered(rt: HostRuntime) {
    assert_eq!(rt; all_are_answered(rt.alloc()), Ok(true));
}

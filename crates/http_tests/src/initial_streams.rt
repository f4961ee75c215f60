//! Initial streams of watches that are longer than what is made of them at once.
use crate::sites::empty;
use crate::steps::{asked, close, looked, sink, written};
use api::Solo;
use request_parts::table::Routes;
use std::alloc::{AllocError, Global};

/// The names of the ConfigMaps that are there.
const NAMES: &[u8] = b"abcdefghijklmnopqrstuvwx";

/// How many bytes each of them says, so that all of them fill three times what is made at once.
const LONG: usize = 8192;

/// A watch of the ConfigMaps of all namespaces that begins with what is there, and a bookmark.
const WATCH: &[u8] =
    b"GET /api/v1/configmaps?watch=true&sendInitialEvents=true&resourceVersionMatch=NotOlderThan&allowWatchBookmarks=true HTTP/1.1\r\n\r\n";

/// How many bytes are read in a step, and how many calls of the writer there are in one: it takes a kilobyte by these.
const READ: usize = 4096;

const WRITES: u64 = 256;

/// The end of a frame of an object.
const ADDED: &[u8] = b"\"type\":\"ADDED\"}\n\r\n";

/// The end of a frame of a bookmark.
const BOOKMARK: &[u8] = b"\"type\":\"BOOKMARK\"}\n\r\n";

/// Returns a create of a ConfigMap of this name.
fn create(alloc: Global, name: u8) -> Result<Vec<u8>, AllocError> {
    let mut body = Vec::new(alloc);
    body.extend_from_slice(b"{\"metadata\":{\"name\":\"")?;
    body.push(name)?;
    body.extend_from_slice(b"\"},\"data\":{\"k\":\"")?;
    for _ in 0..LONG {
        body.push(b'v')?;
    }
    body.extend_from_slice(b"\"}}")?;
    let head = format!(in alloc;
        "POST /api/v1/namespaces/default/configmaps HTTP/1.1\r\nContent-Length: {}\r\n\r\n",
        body.len()
    )?;
    let mut text = head.into_bytes();
    text.extend_from_slice(&body)?;
    Ok(text)
}

/// Asks a server for what a text says, and reads no reply.
fn ask(alloc: Global, routes: &Routes, site: &mut Solo, text: &[u8]) {
    close(asked(alloc, routes, site, text, READ, &mut sink(alloc)));
}

/// Creates these ConfigMaps.
fn fill(alloc: Global, routes: &Routes, site: &mut Solo) -> Result<(), AllocError> {
    for name in NAMES {
        let text = create(alloc, *name)?;
        ask(alloc, routes, site, &text);
    }
    Ok(())
}

/// Returns a server where these ConfigMaps are.
fn filled(alloc: Global, routes: &Routes) -> Result<Solo, AllocError> {
    let mut site = empty(alloc)?;
    fill(alloc, routes, &mut site)?;
    Ok(site)
}

/// Returns how often a word stands in a text.
fn count(text: &[u8], word: &[u8]) -> usize {
    let mut count: usize = 0;
    for at in 0..text.len() {
        if text.split_at(at).1.starts_with(word) {
            count = count.saturating_add(1);
        }
    }
    count
}

/// Returns what is written of a watch.
fn watched(alloc: Global, routes: &Routes, site: &mut Solo) -> Vec<u8> {
    let mut taken = sink(alloc);
    let phase = asked(alloc, routes, site, WATCH, READ, &mut taken);
    close(written(alloc, routes, phase, WRITES, &mut taken));
    taken.written
}

/// Returns what is written of a watch at a server where the ConfigMaps are.
fn streamed(alloc: Global) -> Result<Vec<u8>, AllocError> {
    let routes = Routes::new(alloc)?;
    let mut site = filled(alloc, &routes)?;
    Ok(watched(alloc, &routes, &mut site))
}

/// Returns whether a watch is written all that is there, and then one bookmark.
fn is_all_streamed(alloc: Global) -> Result<bool, AllocError> {
    let text = streamed(alloc)?;
    let has_all = count(&text, ADDED) == NAMES.len() && text.len() > NAMES.len() * LONG;
    Ok(has_all && count(&text, BOOKMARK) == 1 && text.ends_with(BOOKMARK))
}

#[test]
fn an_initial_stream_comes_whole(rt: HostRuntime) {
    assert_eq!(rt; is_all_streamed(rt.alloc()), Ok(true));
}

/// Returns what is written of a watch that is given a look, before its initial stream is made, at what is created after it has opened.
fn looked_on(alloc: Global, routes: &Routes, site: &mut Solo, create: &[u8]) -> Vec<u8> {
    let mut taken = sink(alloc);
    let opened = asked(alloc, routes, site, WATCH, READ, &mut taken);
    ask(alloc, routes, site, create);
    let phase = looked(alloc, opened, site);
    close(written(alloc, routes, phase, WRITES, &mut taken));
    taken.written
}

/// Returns what is written of such a watch, where one more ConfigMap is created.
fn streamed_and_told(alloc: Global) -> Result<Vec<u8>, AllocError> {
    let create = create(alloc, b'z')?;
    let routes = Routes::new(alloc)?;
    let mut site = filled(alloc, &routes)?;
    Ok(looked_on(alloc, &routes, &mut site, &create))
}

/// Returns whether what is written after a watch has opened is told after all that was there, though it is looked at before that is made.
fn is_told_last(alloc: Global) -> Result<bool, AllocError> {
    let text = streamed_and_told(alloc)?;
    let is_last = text.ends_with(ADDED) && count(&text, BOOKMARK) == 1;
    Ok(is_last && count(&text, ADDED) == NAMES.len() + 1)
}

#[test]
fn a_look_is_told_after_the_initial_stream(rt: HostRuntime) {
    assert_eq!(rt; is_told_last(rt.alloc()), Ok(true));
}

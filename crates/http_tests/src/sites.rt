//! Servers over memory, and connections to them that are served at once.
use api::{ServeFault, Served, Solo, serve_one};
use chunked::Watched;
use http_watch::LookPace;
use metadata_values::moments::Moment;
use request_parts::table::Routes;
use server::Server;
use spec_api::kinds::Kind;
use std::alloc::{AllocError, Global};
use std::io::ErrorKind;
use test_fixtures::{Source, TestSink};

/// A create of the ConfigMap `a`.
pub const CREATE: &[u8] =
    b"POST /api/v1/namespaces/default/configmaps HTTP/1.1\r\nContent-Length: 42\r\n\r\n{\"metadata\":{\"name\":\"a\"},\"data\":{\"k\":\"v\"}}";

/// A list of the ConfigMaps of all namespaces.
pub const LIST: &[u8] = b"GET /api/v1/configmaps HTTP/1.1\r\n\r\n";

/// A call that never comes: a device that fails there fails never.
pub const NEVER: u64 = u64::MAX;

/// Does not wait.
#[derive(Drop)]
struct AtOnce;

impl LookPace for AtOnce {
    fn pause(&mut self, _kind: Kind, _idle: u64) {}
}

/// Returns a server where nothing is there.
pub fn empty(alloc: Global) -> Result<Solo, AllocError> {
    Ok(Solo::new(Server::new(alloc, 1024)?))
}

/// Serves a connection whose text comes at most so many bytes a call, whose reader fails at this call, and whose replies go to this sink.
/// Returns how it is left, and what was written.
pub fn serve(
    alloc: Global,
    routes: &Routes,
    site: &mut Solo,
    source: Source<'_>,
    sink: TestSink,
) -> (Result<Served, ServeFault>, Vec<u8>) {
    let mut reader = Watched::new(source);
    let mut writer = Watched::new(sink);
    let outcome = serve_one(
        alloc,
        routes,
        &mut reader,
        &mut writer,
        site,
        Moment::start(),
        &mut AtOnce,
    );
    (outcome, writer.into_inner().written)
}

/// Returns a writer with this room, which fails at this call.
pub fn breaking(written: Vec<u8>, bad: u64) -> TestSink {
    TestSink {
        written,
        bad,
        kind: ErrorKind::BrokenPipe,
        calls: 0,
    }
}

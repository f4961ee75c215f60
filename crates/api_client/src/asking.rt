//! A server behind connections.
ghost use Rattle.std.specs.Prelude.{◌≡◌, false};
ghost use Rattle.chunked.specs.Devices.{device_of, has_failed};
ghost use Rattle.http_client.specs.Calls.{text_of};
ghost use Rattle.api_client.specs.Asked.{IsWatchedFrom};
ghost use Rattle.api_client.specs.Outgoing.{get_text};

use crate::api::Api;
use crate::beginning::begin_watch;
use crate::connect::Connect;
use crate::limits::Limits;
use crate::opened::Opened;
use crate::outgoing::outgoing;
use chunked::{Reader, Watched};
use http_client::outgoing::text_of;
use http_client::{Answer, More, Outgoing, read_more, send_and_read};
use request_encoding::{
    Scope, can_be_told, list_target, page_target, request_text, stream_target, watch_target,
};
use request_parts::Request;
use spec_api::kinds::Kind;
use std::alloc::Global;
use std::io::Read;

/// A server that is asked over connections, one for each request, and the watch of it that is open, if one is. Lists, watches and streams are
/// those of a scope.
pub struct Remote<C: Connect + Drop> {
    connector: C,
    watch: Option<Reader<C::Reader>>,
    scope: Scope,
    limits: Limits,
}

impl<C: Connect + Drop> Drop for Remote<C> {
    // Called where one is dropped; a derived drop is proved anew at each such place.
    fn drop(self) {
        let Remote {
            connector: _connector,
            watch: _watch,
            scope: _scope,
            limits: _limits,
        } = self;
    }
}

/// Returns a GET of a target. No host is named but the machine itself: who connects knows where to.
fn get(target: &str) -> Outgoing<'_>
    ensures { text_of result ≡ get_text target.now }
{
    Outgoing {
        method: "GET",
        target,
        host: "localhost",
        media_type: "application/json",
        body: b"",
    }
}

/// Returns what reads a watch, if it is open, from where a reader stands.
fn watch_from<R: Read + Drop>(opened: Opened, reader: Watched<R>) -> Option<Reader<R>>
    requires { opened ≡ Opened.Open → has_failed reader ≡ false }
    ensures { IsWatchedFrom R.remaining (R.remaining (device_of reader)) opened result }
{
    match opened {
        Opened::Open => Some(Reader::new(reader)),
        Opened::Expired | Opened::Refused { .. } | Opened::Lost => None,
    }
}

impl<C: Connect + Drop> Remote<C> {
    ghost use Rattle.std.specs.Prelude.{◌≡◌, None};
    ghost use Rattle.http_client.specs.Calls.{text_of};
    ghost use Rattle.request_encoding.specs.Scopes.{everything};
    ghost use Rattle.request_encoding.specs.Seen.{scope_of};
    ghost use Rattle.api_client.specs.Asked.{IsOpened, IsSent, Keeps, Stays, connector_at, limits_of, scope_at, watch_at};
    ghost use Rattle.api_client.specs.Outgoing.{get_text};

    /// Returns a server to which this connects, with no watch, whose lists and watches are of all namespaces, and the usual limits.
    pub fn new(connector: C) -> Remote<C>
        ensures scope { scope_at result ≡ everything }
        ensures limits { limits_of result ≡ Limits.USUAL }
        ensures connector { connector_at result ≡ connector }
        ensures watch { watch_at result ≡ None }
    {
        Remote::within(connector, Scope::everything())
    }

    /// Returns a server to which this connects, with no watch, whose lists and watches are those of a scope, and the usual limits.
    pub fn within(connector: C, scope: Scope) -> Remote<C>
        ensures scope { scope_at result ≡ scope_of scope }
        ensures limits { limits_of result ≡ Limits.USUAL }
        ensures connector { connector_at result ≡ connector }
        ensures watch { watch_at result ≡ None }
    {
        Remote::limited(connector, scope, Limits::USUAL)
    }

    /// Returns a server to which this connects, with no watch, whose lists and watches are those of a scope, and these limits.
    pub fn limited(connector: C, scope: Scope, limits: Limits) -> Remote<C>
        ensures scope { scope_at result ≡ scope_of scope }
        ensures limits { limits_of result ≡ limits }
        ensures connector { connector_at result ≡ connector }
        ensures watch { watch_at result ≡ None }
    {
        Remote {
            connector,
            watch: None,
            scope,
            limits,
        }
    }

    /// Writes a request over a new connection, and returns what became of it, with a body of so many bytes at most. There is no connection before there is
    /// memory for its text.
    fn send(&mut self, alloc: Global, request: Outgoing<'_>, most: u32) -> Answer
        ensures sent { IsSent C.connects C.Reader.remaining C.Writer.contents most (text_of request.entry) (connector_at self.old) result (connector_at self.new) }
        ensures keeps { Keeps self.old self.new }
    {
        match text_of(alloc, request) {
            Ok(text) => self.send_text(alloc, &text, most),
            Err(_) => Answer::NotSent,
        }
    }

    /// Writes the text of a request over a new connection, and returns what became of it, with a body of so many bytes at most.
    fn send_text(&mut self, alloc: Global, text: &[u8], most: u32) -> Answer
        ensures sent { IsSent C.connects C.Reader.remaining C.Writer.contents most text.now (connector_at self.old) result (connector_at self.new) }
        ensures keeps { Keeps self.old self.new }
    {
        match self.connector.connect() {
            Ok((reader, writer)) => {
                let mut writer = Watched::new(writer);
                send_and_read(alloc, text, Watched::new(reader), &mut writer, most)
            }
            Err(_) => Answer::NotSent,
        }
    }

    /// Writes the request for a watch over a new connection, and opens it.
    fn begin(&mut self, alloc: Global, text: &[u8]) -> Opened
        requires { watch_at self.old ≡ None }
        ensures opened { IsOpened C.connects_to_watch C.Reader.remaining C.Writer.contents text.now (connector_at self.old) result (connector_at self.new)
            (watch_at self.new) }
        ensures stays { Stays self.old self.new }
    {
        let (reader, writer) = match self.connector.connect_to_watch() {
            Ok(ends) => ends,
            Err(_) => return Opened::Lost,
        };
        let mut reader = Watched::new(reader);
        let mut writer = Watched::new(writer);
        let opened = begin_watch(alloc, text, &mut reader, &mut writer);
        self.watch = watch_from(opened, reader);
        opened
    }

    /// Opens the watch of a target, if there is memory for its request.
    fn open(&mut self, alloc: Global, target: &str) -> Opened
        requires { watch_at self.old ≡ None }
        ensures opened { IsOpened C.connects_to_watch C.Reader.remaining C.Writer.contents (get_text target.now) (connector_at self.old) result
            (connector_at self.new) (watch_at self.new) }
        ensures stays { Stays self.old self.new }
    {
        match text_of(alloc, get(target)) {
            Ok(text) => self.begin(alloc, &text),
            Err(_) => Opened::Lost,
        }
    }
}

impl<C: Connect + Drop> Api for Remote<C> {
    ghost use Rattle.api_client.specs.Asked.{Exchanges, IsCalled, Keeps, connector_at, limits_of};

    ghost answers = { λ before request answer after.
        IsCalled C.connects C.Reader.remaining C.Writer.contents (limits_of before).object request (connector_at before) answer (connector_at after)
        × Keeps before after };

    ghost exchanges = { λ before exchanged after. Exchanges C.connects C.connects_to_watch C.Reader.remaining C.Writer.contents before exchanged after };

    fn call(&mut self, alloc: Global, request: &Request) -> Answer {
        if !can_be_told(request) {
            return Answer::NotSent;
        }
        match request_text(alloc, request) {
            Ok(text) => self.send(alloc, outgoing(&text), self.limits.object),
            Err(_) => Answer::NotSent,
        }
    }

    fn list(&mut self, alloc: Global, kind: Kind) -> Answer {
        match list_target(alloc, &self.scope, kind) {
            Ok(target) => self.send(alloc, get(target.as_str()), self.limits.list),
            Err(_) => Answer::NotSent,
        }
    }

    fn first_at(&mut self, alloc: Global, kind: Kind, revision: u64) -> Answer {
        match page_target(alloc, &self.scope, kind, 1, revision) {
            Ok(target) => self.send(alloc, get(target.as_str()), self.limits.object),
            Err(_) => Answer::NotSent,
        }
    }

    fn open_watch(&mut self, alloc: Global, kind: Kind, revision: u64) -> Opened {
        self.watch = None;
        match watch_target(alloc, &self.scope, kind, revision) {
            Ok(target) => self.open(alloc, target.as_str()),
            Err(_) => Opened::Lost,
        }
    }

    fn open_stream(&mut self, alloc: Global, kind: Kind) -> Opened {
        self.watch = None;
        match stream_target(alloc, &self.scope, kind) {
            Ok(target) => self.open(alloc, target.as_str()),
            Err(_) => Opened::Lost,
        }
    }

    fn more(&mut self, buf: &mut [u8]) -> More {
        if buf.is_empty() {
            return More::Cut;
        }
        match &mut self.watch {
            Some(watch) => read_more(watch, buf),
            None => More::Cut,
        }
    }

    fn note_understood(&mut self) {}

    fn note_not_understood(&mut self, _bytes: &[u8]) {}
}

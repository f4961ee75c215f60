//! A server of another process, whose end is seen.
ghost use Rattle.std.specs.Prelude.{◌≡◌};
ghost use Rattle.kcp_loopback.specs.Others.{api_of};

use crate::connecting::LoopbackConnector;
use crate::errand::Errand;
use crate::trouble::Trouble;
use api_client::{Api, Opened};
use http_client::statuses::OK;
use http_client::{Answer, More};
use request_parts::Request;
use serde_json::Value;
use spec_api::kinds::Kind;
use std::alloc::Global;
use std::net::{Net, TcpStream};

/// A server of another process. Where an answer or a watch breaks off, it is looked at once whether the server is still there: one that is
/// started in its place has an empty store, and is not to be taken for one that goes on, though its first revisions are the same.
#[derive(Drop)]
pub struct OtherServer<'a, R, A: Api + Drop> {
    connector: LoopbackConnector<'a, R>,
    api: A,
    /// Whether what came last was not understood.
    is_puzzled: bool,
}

/// Returns whether a request is to change something.
fn is_write(request: &Request) -> bool {
    !matches!(request, Request::Get(_) | Request::List(_))
}

/// Returns a text in the metadata of an object, if it is there.
fn text_in<'a>(object: &'a Value, member: &str) -> Option<&'a str> {
    object.get("metadata")?.get(member)?.as_str()
}

/// Returns the name of the object that a request asks for, or what it is to be generated from.
fn name_of(request: &Request) -> &str {
    match request {
        Request::Create(_, _, object) => text_in(object, "name")
            .or(text_in(object, "generateName"))
            .unwrap_or(""),
        Request::Get(key)
        | Request::Update(key, _)
        | Request::UpdateStatus(key, _)
        | Request::Patch(key, _)
        | Request::Delete(key, _) => key.name.as_str(),
        Request::List(_) => "",
    }
}

impl<'a, R, A: Api + Drop> OtherServer<'a, R, A> {
    /// Returns the server that an API asks and to which this connects.
    pub fn new(connector: LoopbackConnector<'a, R>, api: A) -> OtherServer<'a, R, A> {
        OtherServer {
            connector,
            api,
            is_puzzled: false,
        }
    }
}

impl<R: Net<Stream = TcpStream> + Eprint, A: Api + Drop> OtherServer<'_, R, A> {
    /// Notes that no whole answer came, after a look at the server: where that is gone, nothing could come.
    fn note_lost(&self) {
        if self.connector.look() {
            self.connector.teller().note_lost();
        }
    }

    /// Returns the code that was answered, if one was.
    fn code_of(&self, answer: &Answer) -> Option<u16> {
        match answer {
            Answer::Lost => {
                self.note_lost();
                None
            }
            Answer::Replied(reply) => Some(reply.code),
            Answer::NotSent => None,
        }
    }

    /// Notes whether a write of one object was denied.
    fn note_decided(&self, request: &Request, answer: &Answer) {
        if let Answer::Replied(reply) = answer {
            self.connector.teller().note_decided(
                Errand::of(request),
                name_of(request),
                reply.code,
                reply.body.as_slice(),
            );
        }
    }

    /// Notes what a request of one object was answered.
    fn note_answer(&self, request: &Request, answer: &Answer) {
        if let Some(code) = self.code_of(answer) {
            let teller = self.connector.teller();
            if is_write(request) {
                teller.note_written(code);
                self.note_decided(request, answer);
            }
            teller.note_answered(Errand::of(request), code);
            teller.note_whole();
        }
    }

    /// Notes what was answered in the place of a list of a kind, or of its first object.
    fn note_list(&self, kind: Kind, answer: &Answer) {
        if let Some(code) = self.code_of(answer) {
            let teller = self.connector.teller();
            teller.note_listed(kind, code);
            teller.note_whole();
        }
    }

    /// Notes that what came last was not understood, until something is.
    fn note_puzzled(&mut self)
        ensures { api_of self.new ≡ api_of self.old }
    {
        if !self.is_puzzled {
            self.is_puzzled = true;
            self.connector.teller().note_puzzled();
        }
    }

    /// Notes a reply of success that is no watch.
    fn note_no_watch(&mut self)
        ensures { api_of self.new ≡ api_of self.old }
    {
        self.note_puzzled();
        self.connector.teller().note(Trouble::Unreadable);
    }

    /// Notes a status code that a watch of a kind was answered with. Of its reply no more than the head was read.
    fn note_opened(&self, kind: Kind, code: u16) {
        self.connector
            .teller()
            .note_answered(Errand::follow(kind), code);
    }

    /// Looks at the server where a watch of a kind was asked for and nothing was answered, and notes the code that it was answered with. A reply of
    /// success that is no watch is not understood.
    fn look_after(&mut self, kind: Kind, opened: Opened)
        ensures { api_of self.new ≡ api_of self.old }
    {
        match opened {
            Opened::Lost => self.note_lost(),
            Opened::Refused { code, .. } if code == OK => self.note_no_watch(),
            Opened::Refused { code, .. } => self.note_opened(kind, code),
            Opened::Expired => {}
            Opened::Open => self.note_opened(kind, OK),
        }
    }

    /// Looks at the server as after a watch where a stream of a kind was asked for, which stands for a list. Where it is refused, and not for now
    /// alone, a list is asked for next, and that tells.
    fn look_after_stream(&mut self, kind: Kind, opened: Opened)
        ensures { api_of self.new ≡ api_of self.old }
    {
        match opened {
            Opened::Open => self.connector.teller().note_listed(kind, OK),
            Opened::Refused { code, .. } => self.note_opened(kind, code),
            _ => self.look_after(kind, opened),
        }
    }
}

impl<R: Net<Stream = TcpStream> + Eprint, A: Api + Drop> Api for OtherServer<'_, R, A> {
    ghost answers = { λ before request answer after. A.answers (api_of before) request answer (api_of after) };

    ghost exchanges = { λ before exchanged after. A.exchanges (api_of before) exchanged (api_of after) };

    fn call(&mut self, alloc: Global, request: &Request) -> Answer {
        let answer = self.api.call(alloc, request);
        self.note_answer(request, &answer);
        answer
    }

    fn list(&mut self, alloc: Global, kind: Kind) -> Answer {
        let answer = self.api.list(alloc, kind);
        self.note_list(kind, &answer);
        answer
    }

    fn first_at(&mut self, alloc: Global, kind: Kind, revision: u64) -> Answer {
        let answer = self.api.first_at(alloc, kind, revision);
        self.note_list(kind, &answer);
        answer
    }

    fn open_watch(&mut self, alloc: Global, kind: Kind, revision: u64) -> Opened {
        let opened = self.api.open_watch(alloc, kind, revision);
        self.look_after(kind, opened);
        opened
    }

    fn open_stream(&mut self, alloc: Global, kind: Kind) -> Opened {
        let opened = self.api.open_stream(alloc, kind);
        self.look_after_stream(kind, opened);
        opened
    }

    fn more(&mut self, buf: &mut [u8]) -> More {
        let more = self.api.more(buf);
        if matches!(more, More::Cut) {
            self.connector.look();
        }
        more
    }

    fn note_understood(&mut self) {
        let was_puzzled = self.is_puzzled;
        self.is_puzzled = false;
        self.connector.teller().note_understood(was_puzzled);
        self.api.note_understood();
    }

    fn note_not_understood(&mut self, bytes: &[u8]) {
        self.note_puzzled();
        self.connector
            .teller()
            .note_not_understood(Trouble::Unreadable, b"", bytes);
        self.api.note_not_understood(bytes);
    }
}

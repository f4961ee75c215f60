//! The server of the same process, asked without connections.
ghost use Rattle.std.specs.Prelude.{◌≡◌, IfOk};
ghost use Rattle.api_client.specs.Asked.{Exchanges};
ghost use Rattle.kcp_loopback.specs.Asking.{Asks, IsAskedOrNotSent, remote_at, seat_at};
ghost use Rattle.kcp_loopback.specs.Told.{TellsResult};
ghost use Rattle.request_parts.specs.Requests.{request_of};
ghost use Rattle.spec_api.specs.Reached.{CanBeRead};
ghost use Rattle.desk.specs.Desks.{IsPassAt, known};
ghost use Rattle.desk.specs.Seats.{desk_at, known_at};

use crate::ringing::Ringer;
use api::Site;
use api_client::{Api, Connect, Opened, Remote};
use desk::{Desk, Readable, Seat, StorePass};
use http_client::{Answer, More};
use http_event_loop::Loops;
use metadata_values::moment;
use object_keys::Fault;
use request_decoding::{Asked, read_request};
use request_encoding::{can_be_told, request_text};
use request_parts::Request;
use request_parts::table::Routes;
use spec_api::kinds::Kind;
use std::alloc::{AllocError, Global};
use std::sync::Wait;
use std::time::Clock;

/// The server of the same process. What is asked of one object it answers at a seat of its desk, as it would answer a connection, and
/// without one; lists and watches go over connections.
#[derive(Drop)]
pub struct OwnServer<'a, R, C: Connect + Drop> {
    rt: &'a R,
    routes: Routes,
    seat: Seat<'a, Readable, Ringer<'a>, R>,
    remote: Remote<C>,
}

/// Returns what a client is answered. The server has done nothing where it had no memory: the request is as good as not sent.
pub fn answer_of(alloc: Global, outcome: Result<reply::Reply, Fault>) -> Answer
    ensures { TellsResult outcome result }
{
    let reply = match outcome {
        Ok(reply) => reply,
        Err(Fault::NoMemory) => return Answer::NotSent,
        Err(fault) => match reply::Reply::refusal(alloc, &fault) {
            Ok(reply) => reply,
            Err(_) => return Answer::NotSent,
        },
    };
    Answer::Replied(http_client::HttpReply {
        code: reply.code,
        retry_after: None,
        body: reply.text.into_bytes(),
    })
}

impl<'a, R: Wait + Clock, C: Connect + Drop> OwnServer<'a, R, C> {
    /// Returns the server of a desk, to whose loops its writes are told, and to which this connects.
    pub fn new(
        rt: &'a R,
        alloc: Global,
        desk: &'a Desk<Readable>,
        pass: StorePass,
        loops: &'a Loops,
        connector: C,
    ) -> Result<OwnServer<'a, R, C>, AllocError>
        requires { IsPassAt desk.now pass }
        ensures desk { IfOk result (λ server. desk_at (seat_at server) ≡ desk.entry.now) }
        ensures known { IfOk result (λ server. known_at (seat_at server) ≡ known pass) }
    {
        let ringer = Ringer {
            loops,
            number: None,
        };
        Ok(OwnServer {
            rt,
            routes: Routes::new(alloc)?,
            seat: Seat::new(desk, pass, rt, ringer),
            remote: Remote::new(connector),
        })
    }

    /// Returns what a request is answered now.
    fn answer(&mut self, alloc: Global, request: Request) -> Answer
        requires read { CanBeRead (request_of request) }
        ensures asks { IsAskedOrNotSent (seat_at self.old) (request_of request) result (seat_at self.new) }
        ensures remote { remote_at self.new ≡ remote_at self.old }
    {
        match moment(self.rt) {
            Some(moment) => answer_of(alloc, self.seat.call(alloc, request, moment)),
            None => {
                drop(request);
                Answer::NotSent
            }
        }
    }

    /// Answers a request as its text is read, so that it is answered as over a connection.
    pub fn ask(&mut self, alloc: Global, request: &Request) -> Answer
        ensures asks { Asks (seat_at self.old) (request_of request.now) result (seat_at self.new) }
        ensures remote { remote_at self.new ≡ remote_at self.old }
    {
        if !can_be_told(request) {
            return Answer::NotSent;
        }
        let Ok(text) = request_text(alloc, request) else {
            return Answer::NotSent;
        };
        let (target, body) = (text.target.as_bytes(), text.body.as_bytes());
        match read_request(alloc, &self.routes, text.method, target, body) {
            Ok(Asked::Request(request)) => self.answer(alloc, request),
            Ok(_) => Answer::NotSent,
            Err(fault) => answer_of(alloc, Err(fault)),
        }
    }
}

impl<R: Wait + Clock, C: Connect + Drop> Api for OwnServer<'_, R, C> {
    ghost answers = { λ before request answer after. Asks (seat_at before) request answer (seat_at after) };

    ghost exchanges = { λ before exchanged after. (seat_at after ≡ seat_at before)
        × Exchanges C.connects C.connects_to_watch C.Reader.remaining C.Writer.contents (remote_at before) exchanged (remote_at after) };

    fn call(&mut self, alloc: Global, request: &Request) -> Answer {
        self.ask(alloc, request)
    }

    fn list(&mut self, alloc: Global, kind: Kind) -> Answer {
        self.remote.list(alloc, kind)
    }

    fn first_at(&mut self, alloc: Global, kind: Kind, revision: u64) -> Answer {
        self.remote.first_at(alloc, kind, revision)
    }

    fn open_watch(&mut self, alloc: Global, kind: Kind, revision: u64) -> Opened {
        self.remote.open_watch(alloc, kind, revision)
    }

    fn open_stream(&mut self, alloc: Global, kind: Kind) -> Opened {
        self.remote.open_stream(alloc, kind)
    }

    fn more(&mut self, buf: &mut [u8]) -> More {
        self.remote.more(buf)
    }

    fn note_understood(&mut self) {}

    fn note_not_understood(&mut self, _bytes: &[u8]) {}
}

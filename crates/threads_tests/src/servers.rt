//! The server of a test.
ghost use Rattle.std.specs.Prelude.{All};
ghost use Rattle.desk.specs.Desks.{IsNewAt, IsPassAt};

use crate::environments::Environment;
use crate::ringers::BellRinger;
use crate::scenes::Scene;
use crate::watches::Watch;
use api::Site;
use api_client::{Api, Opened};
use desk::{Readable, Seat, StorePass};
use http_client::{Answer, More};
use http_watch::WatchSource;
use kcp_loopback::answer_of;
use metadata_values::moments::Moment;
use object_keys::Fault;
use request_decoding::{Asked, read_request};
use request_encoding::{can_be_told, request_text};
use request_parts::Request;
use request_parts::list_options::ListOptions;
use request_parts::table::Routes;
use selector::View;
use spec_api::kinds::Kind;
use spec_api::versions::At;
use std::alloc::{AllocError, Global};
use std::sync::Wait;
use std::time::Clock;
use wakeups::Stop;

/// How many events a watch is given at once at most.
const MOST_EVENTS: usize = 64;

/// How many milliseconds a watch that has seen nothing waits for a write at most.
const PAUSE_MILLISECONDS: u64 = 20;

/// The server of an environment, as one thread asks it: without connections, at a seat of the desk that all threads share. Its clock stands
/// still, and its watches live until all threads are to stop.
#[derive(Drop)]
pub struct SharedServer<'a, R> {
    rt: &'a R,
    alloc: Global,
    seat: Seat<'a, Readable, BellRinger<'a>, R>,
    environment: &'a Environment,
    stop: &'a Stop,
    watch: Watch,
}

impl<'a, R: Wait + Clock> SharedServer<'a, R> {
    ghost use Rattle.std.specs.Prelude.{All};
    ghost use Rattle.desk.specs.Desks.{IsNewAt, IsPassAt};

    /// Returns the server of a scene, for who has a pass of its desk.
    pub fn new(scene: &Scene<'a, R>, pass: StorePass) -> SharedServer<'a, R>
        requires { IsPassAt scene.now.environment.now.desk pass }
    {
        let (rt, environment, signals) = (scene.rt, scene.environment, scene.signals);
        let ringer = BellRinger {
            bell: &environment.bell,
        };
        SharedServer {
            rt,
            alloc: scene.alloc,
            seat: Seat::new(&environment.desk, pass, rt, ringer),
            environment,
            stop: &signals.stop,
            watch: Watch::new(scene.alloc, Kind::ConfigMap, 0),
        }
    }

    /// Returns the server of a scene, for who has the last of the passes. The error is that none is left.
    pub fn next(
        scene: &Scene<'a, R>,
        passes: &mut Vec<StorePass>,
    ) -> Result<SharedServer<'a, R>, AllocError>
        requires { All (IsNewAt scene.now.environment.now.desk) passes.old.items }
        ensures { All (IsNewAt scene.now.environment.now.desk) passes.new.items }
    {
        match passes.pop() {
            Some(pass) => Ok(SharedServer::new(scene, pass)),
            None => Err(AllocError),
        }
    }

    /// Returns the answer to a request. It is written as text and read again, so that it is answered as over a connection.
    fn answer(&mut self, alloc: Global, request: &Request) -> Answer {
        if !can_be_told(request) {
            return Answer::NotSent;
        }
        let Ok(text) = request_text(alloc, request) else {
            return Answer::NotSent;
        };
        let Ok(routes) = Routes::new(alloc) else {
            return Answer::NotSent;
        };
        let (target, body) = (text.target.as_bytes(), text.body.as_bytes());
        match read_request(alloc, &routes, text.method, target, body) {
            Ok(Asked::Request(request)) => {
                answer_of(alloc, self.seat.call(alloc, request, Moment::start()))
            }
            Ok(_) => Answer::NotSent,
            Err(fault) => answer_of(alloc, Err(fault)),
        }
    }

    /// Returns what is answered to who asks for so many objects of a kind; for all with 0.
    fn listed(&mut self, alloc: Global, kind: Kind, at: At, limit: usize) -> Answer {
        let view = View::unfiltered(alloc, kind, None);
        let options = ListOptions {
            at,
            limit,
            after: None,
        };
        answer_of(alloc, self.seat.list(alloc, &view, &options))
    }

    /// Takes in what the watch is given next, unless watches are paused, and waits for a write past those that were seen where that is nothing.
    fn look(&mut self, seen: u64) -> Result<(), Fault> {
        if !self.environment.are_watches_held(self.watch.kind) {
            let view = View::unfiltered(self.alloc, self.watch.kind, None);
            let after = self.watch.after;
            let watched = match self.seat.watch_from(self.alloc, &view, after, MOST_EVENTS) {
                Ok(watched) => watched,
                Err(fault) => return Err(fault),
            };
            self.watch.take_in(self.alloc, &watched)?;
            if !watched.events.is_empty() {
                return Ok(());
            }
        }
        let _ = self
            .environment
            .bell
            .wait(self.rt, seen, PAUSE_MILLISECONDS);
        Ok(())
    }
}

impl<R: Wait + Clock> Api for SharedServer<'_, R> {
    fn call(&mut self, alloc: Global, request: &Request) -> Answer {
        let answer = self.answer(alloc, request);
        self.environment.note(request, &answer);
        answer
    }

    fn list(&mut self, alloc: Global, kind: Kind) -> Answer {
        self.listed(alloc, kind, At::Present, 0)
    }

    fn first_at(&mut self, alloc: Global, kind: Kind, revision: u64) -> Answer {
        self.listed(alloc, kind, At::Exact(revision), 1)
    }

    fn open_watch(&mut self, alloc: Global, kind: Kind, revision: u64) -> Opened {
        if self.environment.is_expired(kind) {
            return Opened::Expired;
        }
        let view = View::unfiltered(alloc, kind, None);
        match self.seat.watch_from(alloc, &view, revision, 0) {
            Ok(_) => {
                self.watch = Watch::new(alloc, kind, revision);
                Opened::Open
            }
            Err(Fault::Expired { .. }) => Opened::Expired,
            Err(_) => Opened::Lost,
        }
    }

    fn open_stream(&mut self, alloc: Global, kind: Kind) -> Opened {
        let view = View::unfiltered(alloc, kind, None);
        let Ok(begun) = self.seat.initial(alloc, &view, None) else {
            return Opened::Lost;
        };
        match Watch::streaming(alloc, kind, &begun) {
            Ok(watch) => {
                self.watch = watch;
                Opened::Open
            }
            Err(_) => Opened::Lost,
        }
    }

    fn more(&mut self, buf: &mut [u8]) -> More {
        for _ in self.rt.forever() {
            let seen = self.environment.bell.count();
            let is_lost = self.environment.are_watches_lost(self.watch.kind);
            if buf.is_empty() || is_lost || self.stop.is_stopped() {
                return More::Cut;
            }
            let count = self.watch.read(buf);
            if count > 0 {
                return More::Bytes(count);
            }
            if self.look(seen).is_err() {
                return More::Cut;
            }
        }
        unreachable!()
    }

    fn note_understood(&mut self) {}

    fn note_not_understood(&mut self, _bytes: &[u8]) {}
}

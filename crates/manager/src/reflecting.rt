//! A thread that follows a kind.
ghost use Rattle.std.specs.Prelude.{◌≡◌, None};
ghost use Rattle.spec_client_go.specs.Reflectors.{begun_streaming};
ghost use Rattle.control_desk.specs.Desks.{known};
ghost use Rattle.manager.specs.Followed.{reflector_of};
ghost use Rattle.manager.specs.Told.{IsToldAll};

use crate::handler::Handler;
use api_client::Api;
use informer::SharedInformer;
use list_and_watch::{Follower, follow};
use manager_worker::Signals;
use spec_api::kinds::Kind;
use std::alloc::Global;
use std::sync::Wait;
use std::time::Clock;
use tcp_client::StoppableClock;

/// What follows a kind at the server: a reflector and an informer, and what handles each change once it is published.
#[derive(Drop)]
pub struct Reflecting<'a, R: Wait, A: Drop> {
    rt: &'a R,
    alloc: Global,
    kind: Kind,
    signals: &'a Signals,
    follower: Follower<SharedInformer<'a, R>>,
    api: A,
    handler: Handler<'a, R>,
}

impl<'a, R: Wait + Clock, A: Api + Drop> Reflecting<'a, R, A> {
    /// Returns what follows a kind of which nothing was taken in yet, over an informer: it asks for a stream of initial events in place of a list.
    pub fn new(
        rt: &'a R,
        alloc: Global,
        kind: Kind,
        signals: &'a Signals,
        informer: SharedInformer<'a, R>,
        api: A,
        handler: Handler<'a, R>,
    ) -> Reflecting<'a, R, A>
        requires { handler.kind ≡ kind }
        ensures begun { reflector_of result ≡ begun_streaming kind }
        ensures kind { result.handler.kind ≡ kind }
    {
        Reflecting {
            rt,
            alloc,
            kind,
            signals,
            follower: Follower::streaming(alloc, kind, informer),
            api,
            handler,
        }
    }

    /// Follows the kind until all is to stop. Where nothing of a publish was handled yet, the board is told just what is published, each change once and
    /// in order, and after each list but the first the keys that are looked at again; and of the last publish as much as there was memory for.
    pub fn run(&mut self)
        ensures { self.old.handler.looks ≡ None → self.old.handler.handled ≡ 0 → self.old.handler.added ≡ 0
            → IsToldAll self.old.handler.kind self.old.follower self.old.handler.revision (known self.old.handler.pass) self.new.follower (known self.new.handler.pass) }
    {
        let mut clock = StoppableClock::new(self.rt, &self.signals.stop);
        let Reflecting {
            alloc,
            kind,
            follower,
            api,
            handler,
            ..
        } = self;
        follow(*alloc, *kind, follower, api, &mut clock, handler);
    }
}

//! What is asked at a seat.
ghost use Rattle.std.specs.Prelude.{◌≡◌};
ghost use Rattle.request_parts.specs.Requests.{request_of};
ghost use Rattle.api.specs.Told.{Tells};
ghost use Rattle.desk.specs.Desks.{known, IsPassAt};
ghost use Rattle.desk.specs.Seats.{desk_at, known_at, listener_at, Calls};

use crate::askings::{Asking, Readable};
use crate::desks::{Desk, StorePass};
use crate::listeners::Listener;
use crate::seats::Seat;
use api::Site;
use http_watch::{Begun, WatchSource};
use metadata_values::moments::Moment;
use object_keys::Fault;
use reply::Reply;
use request_parts::Request;
use request_parts::list_options::ListOptions;
use revisions::WatchedEvents;
use selector::View;
use server::ListText;
use std::alloc::Global;
use std::sync::Wait;

impl<'a, A: Asking, L: Listener, R: Wait> Seat<'a, A, L, R> {
    /// Returns a seat of a pass at its desk.
    pub fn new(desk: &'a Desk<A>, pass: StorePass, rt: &'a R, listener: L) -> Seat<'a, A, L, R>
        requires { IsPassAt desk.now pass }
        ensures desk { desk_at result ≡ desk.entry.now }
        ensures known { known_at result ≡ known pass }
        ensures listener { listener_at result ≡ listener }
    {
        Seat {
            desk,
            pass,
            rt,
            listener,
        }
    }

    /// Gives the pass and the listener back.
    pub fn leave(self) -> (StorePass, L)
        ensures pass { IsPassAt (desk_at self.entry) result.0 }
        ensures known { known result.0 ≡ known_at self.entry }
        ensures listener { result.1 ≡ listener_at self.entry }
    {
        let Seat { pass, listener, .. } = self;
        (pass, listener)
    }

    /// Answers a request that may be asked at a moment, after which what it writes is written, and the listener has heard of it.
    pub fn request(
        &mut self,
        alloc: Global,
        request: Request,
        moment: Moment,
    ) -> Result<Reply, Fault>
        requires { A.MayAsk (request_of request) }
        ensures { Tells (λ o. Calls A.MayAsk L.Hears self.old (request_of request) moment o self.new) result }
    {
        let kind = request.kind();
        match self
            .desk
            .serve(self.rt, alloc, &mut self.pass, request, moment)
        {
            Ok(served) => {
                if served.wrote {
                    self.listener.wrote(self.rt, kind);
                }
                Ok(served.reply)
            }
            Err(fault) => Err(fault),
        }
    }
}

impl<'a, A: Asking, L: Listener, R: Wait> WatchSource for Seat<'a, A, L, R> {
    ghost use Rattle.desk.specs.Seats.{Watches, Begins};

    ghost Watches = { Watches A.MayAsk };

    ghost Begins = { Begins A.MayAsk };

    fn watch_from(
        &mut self,
        alloc: Global,
        view: &View,
        after: u64,
        most: usize,
    ) -> Result<WatchedEvents, Fault> {
        match self
            .desk
            .watch_from(self.rt, alloc, &mut self.pass, view, after, most)
        {
            Ok(watched) => Ok(watched),
            Err(fault) => Err(fault),
        }
    }

    fn initial(&mut self, alloc: Global, view: &View, least: Option<u64>) -> Result<Begun, Fault> {
        match self
            .desk
            .initial(self.rt, alloc, &mut self.pass, view, least)
        {
            Ok(begun) => Ok(begun),
            Err(fault) => Err(fault),
        }
    }
}

impl<'a, L: Listener, R: Wait> Site for Seat<'a, Readable, L, R> {
    ghost use Rattle.desk.specs.Askings.{IsReadable};
    ghost use Rattle.desk.specs.Seats.{Calls, Lists};

    ghost Calls = { Calls IsReadable L.Hears };

    ghost MayAsk = { IsReadable };

    ghost Lists = { Lists IsReadable };

    fn call(&mut self, alloc: Global, request: Request, moment: Moment) -> Result<Reply, Fault> {
        match self.request(alloc, request, moment) {
            Ok(reply) => Ok(reply),
            Err(fault) => Err(fault),
        }
    }

    fn list(&mut self, alloc: Global, view: &View, options: &ListOptions) -> Result<Reply, Fault> {
        match self
            .desk
            .list(self.rt, alloc, &mut self.pass, view, options)
        {
            Ok(reply) => Ok(reply),
            Err(fault) => Err(fault),
        }
    }

    fn page(
        &mut self,
        alloc: Global,
        view: &View,
        options: &ListOptions,
    ) -> Result<ListText, Fault> {
        match self
            .desk
            .page(self.rt, alloc, &mut self.pass, view, options)
        {
            Ok(text) => Ok(text),
            Err(fault) => Err(fault),
        }
    }

    ghost readable = { λ q can. can };
}

//! A connection that a loop holds.
ghost use Rattle.std.specs.Prelude.{◌≡◌, ◌≤◌, ◌+◌, IfSome, true};
ghost use Rattle.http_connection.specs.Arriving.{IsAskedBySome, MayStand};
ghost use Rattle.http_event_loop.specs.Asked.{HasAsked};
ghost use Rattle.http_event_loop.specs.Begun.{MayHaveBegun};
ghost use Rattle.request_decoding.specs.Asked.{asked_seen};

use crate::asker::Asker;
use crate::begun::Begun;
use crate::deadlines::seconds;
use crate::given::Given;
use crate::ticks::Tick;
use api::{Served, Site};
use http_connection::{ConnectionPhase, Noted, Watching, end_watch, turn};
use mio::event::Event;
use mio::net::TcpStream;
use request_decoding::Asked;
use request_parts::table::Routes;
use spec_api::kinds::Kind;
use std::alloc::Global;
use std::io::{ErrorKind, Read};
use std::net::Shutdown;
use std::sync::ledger::Ledger;
use std::time::Instant;

/// How many bytes of a watch may be unwritten for it to be looked at.
const MOST_AHEAD: usize = 262_144;

/// How many looks in a row that gave no line a write may bring about. The looks after them come one by one in their turns, so that a watch
/// that sees nothing lasts fifteen seconds at least, however much is written that it does not ask for.
const MOST_HURRIED: u64 = 512;

/// How many bytes are read away of what a peer sends unread: bodies that are much too long, as most peers write theirs before they read.
const MOST_READ_AWAY: usize = 16_777_216;

/// How many are read away at once.
const PIECE: usize = 65_536;

/// A connection that a loop holds.
#[derive(Drop)]
pub(crate) struct Held {
    pub(crate) stream: TcpStream,
    phase: ConnectionPhase,
    /// When the peer connected.
    since: Instant,
    /// When it last took something, or there was nothing for it to take.
    took: Instant,
    /// The kind that the loop looks at for it.
    pub(crate) watched: Option<Kind>,
    /// Its place among those that take turns.
    pub(crate) place: usize,
    /// Whether it is to be looked at as soon as its peer takes what it is ahead.
    pub(crate) is_due: bool,
    /// Whether it is among those that write on before the loop waits.
    pub(crate) is_writing_on: bool,
    /// How many bytes more are read away once it is over.
    left: Option<usize>,
    ghost led: { MayStand phase },
}

/// Returns how many pieces were made of what there is to take, and how much is made and not taken; nothing where there is nothing to take.
fn extent(phase: &ConnectionPhase) -> Option<(usize, usize)> {
    match phase {
        ConnectionPhase::Replying(replying) => Some((0, usize::MAX - replying.taken)),
        ConnectionPhase::Listing(listing) => Some((listing.pieces, listing.left())),
        ConnectionPhase::Watching(watching) if watching.has_more() => {
            Some((watching.pieces, watching.left()))
        }
        _ => None,
    }
}

/// Returns whether there was nothing to take, or something was taken: what was made is, or some of it.
fn has_taken(before: Option<(usize, usize)>, now: Option<(usize, usize)>) -> bool {
    match (before, now) {
        (Some(before), Some(now)) => before.0 != now.0 || before.1 > now.1,
        _ => true,
    }
}

impl Held {
    /// Returns a connection that the loop is given.
    pub(crate) fn new(alloc: Global, given: Given) -> Held {
        let Given {
            stream,
            begun,
            since,
        } = given;
        Held {
            stream,
            phase: begun.into_phase(alloc),
            since,
            took: since,
            watched: None,
            place: 0,
            is_due: false,
            is_writing_on: false,
            left: None,
        }
    }

    /// Takes how far the connection has come, if it is for another loop.
    pub(crate) fn take_begun(&mut self) -> Option<Begun>
        ensures led { IfSome result MayHaveBegun }
    {
        match Begun::of_phase(self.take_phase()) {
            Ok(begun) => Some(begun),
            Err(phase) => {
                self.stand(phase);
                None
            }
        }
    }

    /// Returns the connection to be given to another loop, as far as it has come.
    pub(crate) fn into_given(self, begun: Begun) -> Given
        requires led { MayHaveBegun begun }
    {
        drop(self.phase);
        Given {
            stream: self.stream,
            begun,
            since: self.since,
        }
    }

    /// Takes where the connection stands, which is to be put back.
    fn take_phase(&mut self) -> ConnectionPhase
        ensures led { MayStand result }
    {
        std::mem::replace(&mut self.phase, ConnectionPhase::Answering)
    }

    /// Takes note of where the connection stands.
    fn stand(&mut self, phase: ConnectionPhase)
        requires led { MayStand phase }
        ensures phase { self.new.phase ≡ phase }
    {
        drop(std::mem::replace(&mut self.phase, phase));
    }

    /// Takes a request that is whole and not yet asked, if there is one.
    fn take_asked(&mut self) -> Option<Asked>
        ensures asks { IfSome result (λ asked. IsAskedBySome (asked_seen asked)) }
    {
        match self.take_phase() {
            ConnectionPhase::Asked(asked) => Some(asked),
            phase => {
                self.stand(phase);
                None
            }
        }
    }

    /// Takes the watch, if the connection has one.
    fn take_watching(&mut self) -> Option<Watching> {
        match self.take_phase() {
            ConnectionPhase::Watching(watching) => Some(watching),
            phase => {
                self.stand(phase);
                None
            }
        }
    }

    /// Reads and writes as far as that goes now, and asks nothing.
    pub(crate) fn turn<S: Site>(&mut self, alloc: Global, routes: &Routes, now: Instant) {
        if self.phase.is_over() {
            return;
        }
        let before = extent(&self.phase);
        let phase = self.take_phase();
        let phase = self.moved::<S>(alloc, routes, phase);
        self.stand(phase);
        if has_taken(before, extent(&self.phase)) {
            self.took = now;
        }
    }

    /// Reads and writes from where a connection stands, as far as that goes now, and returns where it then stands.
    fn moved<S: Site>(
        &self,
        alloc: Global,
        routes: &Routes,
        phase: ConnectionPhase,
    ) -> ConnectionPhase
        requires led { MayStand phase }
        ensures led { MayStand result }
    {
        let mut reader = Noted::new(&self.stream);
        let mut writer = Noted::new(&self.stream);
        turn::<S, _, _>(alloc, routes, phase, &mut reader, &mut writer)
    }

    /// Reads and writes as far as that goes now. A request that is whole is asked.
    #[tactic(auto, using(crate::proofs::Chains::asks_on, crate::proofs::Chains::asks_nothing))]
    pub(crate) fn go_on<S: Site, L: Ledger>(
        &mut self,
        alloc: Global,
        routes: &Routes,
        asker: &mut Asker<'_, S, L>,
        tick: &Tick,
    )
        ensures asked { HasAsked S.Calls S.Lists S.Begins S.Watches asker.old asker.new }
        ensures once { asker.new.asked ≤ asker.old.asked + 1 }
        ensures taken { asker.new.taken ≡ asker.old.taken }
    {
        self.turn::<S>(alloc, routes, tick.now);
        if let Some(asked) = self.take_asked() {
            let phase = asker.answer(alloc, asked, tick.moment);
            self.stand(phase);
            self.took = tick.now;
            self.turn::<S>(alloc, routes, tick.now);
        }
    }

    /// Takes a look of a watch, and writes it as far as its peer takes it.
    #[tactic(auto, using(crate::proofs::Chains::asks_on, crate::proofs::Chains::asks_nothing))]
    pub(crate) fn look<S: Site, L: Ledger>(
        &mut self,
        alloc: Global,
        routes: &Routes,
        asker: &mut Asker<'_, S, L>,
        now: Instant,
    )
        ensures { HasAsked S.Calls S.Lists S.Begins S.Watches asker.old asker.new }
    {
        if let Some(watching) = self.take_watching() {
            if !watching.has_more() {
                self.took = now;
            }
            let phase = asker.look(alloc, watching);
            self.is_due = phase.is_behind();
            self.stand(phase);
            self.turn::<S>(alloc, routes, now);
        }
    }

    /// Returns whether a look may be taken: all that the watch opened with is made, and its peer has taken enough of what was to be written.
    pub(crate) fn can_look(&self) -> bool {
        match &self.phase {
            ConnectionPhase::Watching(watching) => {
                watching.at.is_some() && !watching.rest.has_more() && watching.left() < MOST_AHEAD
            }
            _ => false,
        }
    }

    /// Has the watch looked at as soon as it can be, after a write of its kind.
    pub(crate) fn hurry(&mut self) {
        if let ConnectionPhase::Watching(watching) = &self.phase {
            if let Some(at) = watching.at {
                if at.idle < MOST_HURRIED {
                    self.is_due = true;
                }
            }
        }
    }

    /// Has a watch that is not over looked at until a look shows that it is told all, as at a stop.
    pub(crate) fn hurry_to_end(&mut self) {
        self.is_due = self.watched_kind().is_some();
    }

    /// Returns the kind of a watch that is not over.
    pub(crate) fn watched_kind(&self) -> Option<Kind> {
        self.phase.watched_kind()
    }

    /// Leaves a watch whose peer takes or sends no more.
    pub(crate) fn leave_if_closed(&mut self, event: &Event) {
        let is_closed = event.is_read_closed() || event.is_write_closed() || event.is_error();
        if is_closed && self.watched_kind().is_some() {
            self.leave();
        }
    }

    /// Leaves the connection as it is.
    pub(crate) fn leave(&mut self)
        ensures { self.new.phase ≡ ConnectionPhase.Closing Served.Asked }
    {
        self.stand(ConnectionPhase::Closing(Served::Asked));
    }

    /// Ends the connection as far as that goes without its peer, as at a stop: a watch that is told all is written its end, and one that is not
    /// is left without it, as its peer would take it for whole; a reply or a list is written on, and what is no whole request is left.
    pub(crate) fn stop<S: Site>(&mut self, alloc: Global, routes: &Routes, now: Instant)
        ensures { self.old.is_due ≡ true → self.new.phase ≡ ConnectionPhase.Closing Served.Asked }
    {
        if self.is_due {
            self.leave();
        } else if let Some(watching) = self.take_watching() {
            self.stand(end_watch::<S>(alloc, watching));
            self.turn::<S>(alloc, routes, now);
        } else if !self.phase.is_unwritten() {
            self.leave();
        }
    }

    /// Returns whether writing stopped so that others go on meanwhile: the peer may take more at once.
    pub(crate) fn is_paused(&self) -> bool {
        self.phase.is_paused()
    }

    /// Writes on what is left unwritten, such as a reply of which there was no memory.
    pub(crate) fn write_on<S: Site>(&mut self, alloc: Global, routes: &Routes, now: Instant) {
        if self.phase.is_unwritten() {
            self.turn::<S>(alloc, routes, now);
        }
    }

    /// Tries again what was not written, and leaves the connection if it has stood where it does for too long. One that is written on in its
    /// turn is passed over: to write on all of these at once would keep others waiting, and it is no peer that they wait for.
    pub(crate) fn leave_late<S: Site>(&mut self, alloc: Global, routes: &Routes, tick: &Tick)
        ensures { self.old.is_writing_on ≡ true → self.new ≡ self.old }
    {
        if self.is_writing_on {
            return;
        }
        self.write_on::<S>(alloc, routes, tick.now);
        if self.is_late(tick) {
            self.leave();
        }
    }

    /// Returns whether the connection has stood here for too long.
    fn is_late(&self, tick: &Tick) -> bool {
        let since = if self.phase.is_reading() {
            self.since
        } else {
            self.took
        };
        match seconds(&self.phase) {
            Some(most) => tick.is_after(since, most * 1000),
            None => false,
        }
    }

    /// Returns whether the connection goes on. Where one is over whose peer may still be sending, ends the sending half and reads away what
    /// still comes, up to 16 MiB: a stream that is closed before its bytes are read is reset, and its peer may lose the reply.
    pub(crate) fn goes_on(&mut self, now: Instant) -> bool {
        match &self.phase {
            ConnectionPhase::Closing(Served::Asked) => false,
            ConnectionPhase::Closing(Served::NotAsked) => self.reads_away(now),
            _ => true,
        }
    }

    /// Returns whether the connection goes on, and is to be held. What it is written from then on is sent at once, as the frames of a watch; what
    /// was written of a reply that is whole by now its end has sent.
    pub(crate) fn is_to_be_held(&mut self, now: Instant) -> bool {
        self.goes_on(now) && self.stream.set_nodelay(true).is_ok()
    }

    /// Reads away what is there, and returns whether more may come.
    fn reads_away(&mut self, now: Instant) -> bool {
        let mut left = match self.left {
            Some(left) => left,
            None => {
                if self.stream.shutdown(Shutdown::Write).is_err() {
                    return false;
                }
                self.took = now;
                MOST_READ_AWAY
            }
        };
        let mut rest = [0u8; PIECE];
        let mut reader = &self.stream;
        for _ in 0..u64::MAX {
            if left == 0 {
                break;
            }
            match reader.read(&mut rest) {
                Ok(0) => return false,
                Ok(n) => left = left.saturating_sub(n),
                Err(error) => {
                    self.left = Some(left);
                    return error.kind() == ErrorKind::WouldBlock;
                }
            }
        }
        false
    }
}

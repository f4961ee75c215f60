//! The connections of a loop.
ghost use Rattle.http_event_loop.specs.Asked.{HasAsked};

use crate::asker::Asker;
use crate::held::Held;
use crate::loops::Loops;
use crate::rota::Rota;
use crate::ticks::Tick;
use crate::wakes::Wakes;
use api::Site;
use mio::event::Event;
use request_parts::table::Routes;
use slab::Slab;
use spec_api::kinds::Kind;
use std::alloc::Global;
use std::collections::VecDeque;
use std::sync::ledger::Ledger;
use std::time::Instant;

/// How many watches of which nothing is known to have changed are looked at in a tick, over all loops; but each looks at one at least.
const MOST_IDLE_LOOKS: usize = 64;

/// How many looks a watch takes as the loop stops, at most.
const MOST_LAST_LOOKS: usize = 64;

/// The connections of a loop, and the turns of those that watch.
#[derive(Drop)]
pub(crate) struct Connections<'a> {
    pub(crate) alloc: Global,
    pub(crate) routes: &'a Routes,
    pub(crate) loops: &'a Loops,
    wakes: &'a Wakes,
    pub(crate) held: Slab<Held>,
    rota: Rota,
    /// Those that stopped writing so that others go on meanwhile, the one first that stopped first.
    paused: VecDeque<usize>,
    /// Whether some watch is to be looked at once more before the loop waits.
    is_behind: bool,
}

impl<'a> Connections<'a> {
    /// Returns no connections.
    pub(crate) fn new(
        alloc: Global,
        routes: &'a Routes,
        loops: &'a Loops,
        wakes: &'a Wakes,
    ) -> Connections<'a> {
        Connections {
            alloc,
            routes,
            loops,
            wakes,
            held: Slab::new(alloc),
            rota: Rota::new(alloc),
            paused: VecDeque::new(alloc),
            is_behind: false,
        }
    }

    /// Returns whether there are none.
    pub(crate) fn is_empty(&self) -> bool {
        self.held.is_empty()
    }

    /// Returns whether some of them watch.
    pub(crate) fn has_watches(&self) -> bool {
        !self.rota.is_empty()
    }

    /// Returns whether some watch is to be looked at once more before the loop waits, or something is to be written on.
    pub(crate) fn is_behind(&self) -> bool {
        self.is_behind || self.has_paused()
    }

    /// Returns whether some of them stopped writing so that others go on meanwhile.
    pub(crate) fn has_paused(&self) -> bool {
        !self.paused.is_empty()
    }

    /// Lets one write on of those that stopped so that others go on meanwhile, the one that stopped first: however many there are, others wait for
    /// no more than that one writes at once.
    pub(crate) fn write_paused<S: Site>(&mut self, now: Instant) {
        let Some(key) = self.paused.pop_front() else {
            return;
        };
        if let Some(held) = self.held.get_mut(key) {
            held.is_writing_on = false;
            held.write_on::<S>(self.alloc, self.routes, now);
        }
        self.settle(key, now);
    }

    /// Lets a connection go on of which the system reports something.
    #[tactic(auto, using(crate::proofs::Chains::asks_on, crate::proofs::Chains::asks_nothing))]
    pub(crate) fn go_on<S: Site, L: Ledger>(
        &mut self,
        event: &Event,
        asker: &mut Asker<'_, S, L>,
        tick: &Tick,
    )
        ensures { HasAsked S.Calls S.Lists S.Begins S.Watches asker.old asker.new }
    {
        let key = event.token().0;
        self.go_on_at(key, asker, tick);
        self.leave_if_closed(key, event);
        self.settle(key, tick.now);
    }

    /// Leaves a watch whose peer takes or sends no more, as the system reports.
    fn leave_if_closed(&mut self, key: usize, event: &Event) {
        if let Some(held) = self.held.get_mut(key) {
            held.leave_if_closed(event);
        }
    }

    /// Takes note of where a connection stands: a watch that has opened takes turns, and one that is over no longer; who is over is let go. What
    /// stopped so that others go on meanwhile is written on before the loop waits; where there is no memory to note it, when deadlines are looked at.
    pub(crate) fn settle(&mut self, key: usize, now: Instant) {
        let Some(held) = self.held.get_mut(key) else {
            return;
        };
        let goes_on = held.goes_on(now);
        let place = held.place;
        let was = held.watched;
        let is = if goes_on { held.watched_kind() } else { None };
        held.watched = is;
        self.is_behind = self.is_behind || (held.is_due && held.can_look());
        if goes_on && held.is_paused() && !held.is_writing_on {
            held.is_writing_on = self.paused.push_back(key).is_ok();
        }
        match (was, is) {
            (None, Some(kind)) => self.watch(key, kind),
            (Some(kind), None) => self.end_watch(place, kind),
            _ => {}
        }
        if !goes_on {
            self.let_go(key);
        }
    }

    /// Lets go of a connection that is over.
    fn let_go(&mut self, key: usize) {
        drop(self.held.try_remove(key));
        if let Some(place) = self.paused.iter().position(|paused| *paused == key) {
            let _ = self.paused.remove(place);
        }
        self.loops.leave();
    }

    /// Gives a watch its turns; where there is no memory for them it is left. It is looked at once more, as others may have written before it
    /// was counted.
    fn watch(&mut self, key: usize, kind: Kind) {
        let place = self.rota.len();
        let is_added = self.rota.add(key).is_ok();
        if is_added {
            self.wakes.of(kind).watch();
            self.loops.watch();
            self.is_behind = true;
        }
        if let Some(held) = self.held.get_mut(key) {
            if is_added {
                held.place = place;
                held.is_due = true;
            } else {
                held.watched = None;
                held.leave();
            }
        }
    }

    /// Takes the watch at a place from its turns. Another one takes its place, and may have been passed over by then.
    fn end_watch(&mut self, place: usize, kind: Kind) {
        self.wakes.of(kind).leave();
        self.loops.leave_watch();
        let _ = self.rota.remove(place);
        self.is_behind = true;
        if let Some(key) = self.rota.keys.get(place) {
            if let Some(held) = self.held.get_mut(*key) {
                held.place = place;
            }
        }
    }

    /// Takes a look of a watch, if its peer has taken enough of what was to be written.
    #[tactic(auto, using(crate::proofs::Chains::asks_on, crate::proofs::Chains::asks_nothing))]
    fn look_at<S: Site, L: Ledger>(&mut self, key: usize, asker: &mut Asker<'_, S, L>, now: Instant)
        ensures { HasAsked S.Calls S.Lists S.Begins S.Watches asker.old asker.new }
    {
        let Some(held) = self.held.get_mut(key) else {
            return;
        };
        if !held.can_look() {
            return;
        }
        held.look(self.alloc, self.routes, asker, now);
    }

    /// Looks at a watch, if its peer has taken enough of what was to be written, and takes note of where it stands then.
    #[tactic(auto, using(crate::proofs::Chains::asks_on, crate::proofs::Chains::asks_nothing))]
    fn look<S: Site, L: Ledger>(&mut self, key: usize, asker: &mut Asker<'_, S, L>, now: Instant)
        ensures { HasAsked S.Calls S.Lists S.Begins S.Watches asker.old asker.new }
    {
        self.look_at(key, asker, now);
        self.settle(key, now);
    }

    /// Has the watches looked at whose kind was written since this was done last.
    pub(crate) fn hear_writes(&mut self) {
        for kind in &Kind::ALL {
            if self.wakes.of(*kind).take_written() {
                self.hurry(*kind);
            }
        }
    }

    /// Has the watches of a kind looked at.
    fn hurry(&mut self, kind: Kind) {
        for key in &self.rota.keys {
            if let Some(held) = self.held.get_mut(*key) {
                if held.watched == Some(kind) {
                    held.hurry();
                    self.is_behind = true;
                }
            }
        }
    }

    /// Returns whether a watch is to be looked at.
    fn is_due(&self, key: usize) -> bool {
        match self.held.get(key) {
            Some(held) => held.is_due,
            None => false,
        }
    }

    /// Takes one look of each watch that may have something to see. Each time another one is the first.
    #[tactic(auto, using(crate::proofs::Chains::asks_on, crate::proofs::Chains::asks_nothing))]
    pub(crate) fn look_due<S: Site, L: Ledger>(&mut self, asker: &mut Asker<'_, S, L>, now: Instant)
        ensures { HasAsked S.Calls S.Lists S.Begins S.Watches asker.old asker.new }
    {
        if !self.is_behind {
            return;
        }
        self.is_behind = false;
        for _ in 0..self.rota.len() {
            if let Some(key) = self.rota.take_turn() {
                if self.is_due(key) {
                    self.look(key, asker, now);
                }
            }
        }
        let _ = self.rota.take_turn();
    }

    /// Returns how many watches of which nothing is known to have changed are looked at in a tick here.
    fn idle_looks(&self) -> usize {
        let part = MOST_IDLE_LOOKS / self.loops.count().max(1);
        self.rota.len().min(part.max(1))
    }

    /// Takes one look of each of the watches whose turn it is, of no more than may be looked at in a tick.
    #[tactic(auto, using(crate::proofs::Chains::asks_on, crate::proofs::Chains::asks_nothing))]
    pub(crate) fn look_in_turn<S: Site, L: Ledger>(
        &mut self,
        asker: &mut Asker<'_, S, L>,
        now: Instant,
    )
        ensures { HasAsked S.Calls S.Lists S.Begins S.Watches asker.old asker.new }
    {
        for _ in 0..self.idle_looks() {
            if let Some(key) = self.rota.take_turn() {
                self.look(key, asker, now);
            }
        }
    }

    /// Tries again what was not written, and leaves the connections that have stood where they do for too long, but for those that are written
    /// on in their turn.
    pub(crate) fn leave_late<S: Site>(&mut self, tick: &Tick) {
        for key in 0..self.held.capacity() {
            if let Some(held) = self.held.get_mut(key) {
                held.leave_late::<S>(self.alloc, self.routes, tick);
            }
            self.settle(key, tick.now);
        }
    }

    /// Lets a connection go on as far as that goes without its peer.
    #[tactic(auto, using(crate::proofs::Chains::asks_on, crate::proofs::Chains::asks_nothing))]
    fn go_on_at<S: Site, L: Ledger>(&mut self, key: usize, asker: &mut Asker<'_, S, L>, tick: &Tick)
        ensures { HasAsked S.Calls S.Lists S.Begins S.Watches asker.old asker.new }
    {
        let Some(held) = self.held.get_mut(key) else {
            return;
        };
        held.go_on(self.alloc, self.routes, asker, tick);
    }

    /// Lets all connections go on as far as that goes without their peers: requests that are whole by now are asked.
    #[tactic(auto, using(crate::proofs::Chains::asks_on, crate::proofs::Chains::asks_nothing))]
    fn go_on_all<S: Site, L: Ledger>(&mut self, asker: &mut Asker<'_, S, L>, tick: &Tick)
        ensures { HasAsked S.Calls S.Lists S.Begins S.Watches asker.old asker.new }
    {
        for key in 0..self.held.capacity() {
            self.go_on_at(key, asker, tick);
            self.settle(key, tick.now);
        }
    }

    /// Takes the last looks of a watch: all that has been written is to be told. One that is not told all by then stays due: its peer has not taken
    /// enough of what was to be written, or too much has been written.
    #[tactic(auto, using(crate::proofs::Chains::asks_on, crate::proofs::Chains::asks_nothing))]
    fn look_last<S: Site, L: Ledger>(
        &mut self,
        key: usize,
        asker: &mut Asker<'_, S, L>,
        now: Instant,
    )
        ensures { HasAsked S.Calls S.Lists S.Begins S.Watches asker.old asker.new }
    {
        if let Some(held) = self.held.get_mut(key) {
            held.hurry_to_end();
        }
        for _ in 0..MOST_LAST_LOOKS {
            self.look(key, asker, now);
            if !self.is_due(key) {
                return;
            }
        }
    }

    /// Ends all connections as far as that goes without their peers: requests that are whole by now are asked, and watches are told what has
    /// been written, and that they end, or are left.
    #[tactic(auto, using(crate::proofs::Chains::asks_on, crate::proofs::Chains::asks_nothing))]
    pub(crate) fn stop<S: Site, L: Ledger>(&mut self, asker: &mut Asker<'_, S, L>, tick: &Tick)
        ensures { HasAsked S.Calls S.Lists S.Begins S.Watches asker.old asker.new }
    {
        self.go_on_all(asker, tick);
        for key in 0..self.held.capacity() {
            self.look_last(key, asker, tick.now);
            if let Some(held) = self.held.get_mut(key) {
                held.stop::<S>(self.alloc, self.routes, tick.now);
            }
            self.settle(key, tick.now);
        }
    }
}

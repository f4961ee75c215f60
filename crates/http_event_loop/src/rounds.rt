//! The rounds of a loop.
ghost use Rattle.std.specs.Prelude.{◌≡◌, true};
ghost use Rattle.http_event_loop.specs.Asked.{HasAsked};

use crate::accepting::{Accepting, LISTENER};
use crate::asker::Asker;
use crate::given::Given;
use crate::loops::Loops;
use crate::open_connections::Connections;
use crate::ticks::Tick;
use crate::wakes::{INBOX, WAKER, Wakes};
use api::Site;
use mio::event::Event;
use mio::{Events, Poll, Registry};
use std::io;
use std::io::ErrorKind;
use std::sync::Wait;
use std::sync::ledger::Ledger;
use std::time::{Clock, Duration, Instant};

/// How long a loop waits for events at most.
const LONGEST_WAIT: u64 = 250;

/// How long one waits that holds watches, and how often it looks at those whose turn it is.
const TURN_MILLISECONDS: u64 = 30;

/// How often deadlines are looked at.
const SWEEP_MILLISECONDS: u64 = 250;

/// How long a stop may take.
const STOP_MILLISECONDS: u64 = 1500;

/// How long a loop waits for events as it stops.
const STOP_WAIT: u64 = 50;

/// How many connections are accepted in a round at most: those that the loop holds, its deadlines and a stop wait meanwhile.
const MOST_ACCEPTED: u64 = 1024;

/// The rounds of a loop: in each it waits for events, and lets connections go on.
#[derive(Drop)]
pub(crate) struct Rounds<'a> {
    loops: &'a Loops,
    wakes: &'a Wakes,
    number: usize,
    connections: Connections<'a>,
    tick: Tick,
    /// When watches took their turns last.
    turned: Instant,
    /// When deadlines were looked at last.
    swept: Instant,
}

/// Waits for events, for no longer than this. A wait that is interrupted gives none.
fn wait(poll: &mut Poll, events: &mut Events, millis: u64) -> io::Result<()> {
    match poll.poll(events, Some(Duration::from_millis(millis))) {
        Ok(()) => Ok(()),
        Err(error) => match error.kind() {
            ErrorKind::Interrupted => Ok(()),
            _ => Err(error),
        },
    }
}

impl<'a> Rounds<'a> {
    /// Returns the rounds of a loop with these connections, which begin at this tick.
    pub(crate) fn new(
        loops: &'a Loops,
        wakes: &'a Wakes,
        number: usize,
        connections: Connections<'a>,
        tick: Tick,
    ) -> Rounds<'a> {
        Rounds {
            loops,
            wakes,
            number,
            connections,
            tick,
            turned: tick.now,
            swept: tick.now,
        }
    }

    /// Waits for events, for no longer than this, as all loops may know.
    fn await_events(&self, poll: &mut Poll, events: &mut Events, millis: u64) -> io::Result<()> {
        self.wakes.say_waiting(true);
        let outcome = wait(poll, events, millis);
        self.wakes.say_waiting(false);
        outcome
    }

    /// Returns how many milliseconds the loop may wait for events: it waits for none where more connections may wait than it accepted.
    fn longest_wait(&self, has_more: bool) -> u64
        ensures { has_more ≡ true → result ≡ 0 }
    {
        if has_more || self.connections.is_behind() {
            0
        } else if self.connections.has_watches() {
            TURN_MILLISECONDS
        } else {
            LONGEST_WAIT
        }
    }

    /// Returns how many milliseconds the loop may wait for events as it stops.
    fn stop_wait(&self) -> u64 {
        if self.connections.has_paused() {
            0
        } else {
            STOP_WAIT
        }
    }

    /// Gives a connection to the loop of this number. One that has too many waiting leaves it here.
    #[tactic(auto, using(crate::proofs::Chains::asks_on, crate::proofs::Chains::asks_nothing))]
    fn give<S: Site, L: Ledger, R: Wait>(
        &mut self,
        rt: &R,
        registry: &Registry,
        number: usize,
        given: Given,
        asker: &mut Asker<'_, S, L>,
    )
        ensures { HasAsked S.Calls S.Lists S.Begins S.Watches asker.old asker.new }
    {
        if let Err(given) = self.loops.give(rt, number, given, self.number) {
            self.connections
                .begin(rt, registry, given, asker, &self.tick);
        }
    }

    /// Accepts the connections that wait and for which there is room, but no more than are accepted in a round, and gives some to this loop, and
    /// the others to others. What is left waits for the next round, which begins at once.
    #[tactic(auto, using(crate::proofs::Chains::asks_on, crate::proofs::Chains::asks_nothing))]
    fn accept_waiting<S: Site, L: Ledger, R: Wait>(
        &mut self,
        rt: &R,
        registry: &Registry,
        accepting: &mut Accepting,
        asker: &mut Asker<'_, S, L>,
    )
        ensures { HasAsked S.Calls S.Lists S.Begins S.Watches asker.old asker.new }
    {
        accepting.begin_round(self.number);
        for _ in 0..MOST_ACCEPTED {
            let Some(stream) = accepting.accept(self.loops) else {
                break;
            };
            let number = accepting.take_place(self.number, self.loops);
            let given = Given::accepted(stream, self.tick.now);
            self.give(rt, registry, number, given, asker);
        }
        if accepting.is_over() {
            self.loops.end();
        }
    }

    /// Gives a connection to the loop of this number, or lets it begin if that is this loop.
    #[tactic(auto, using(crate::proofs::Chains::asks_on, crate::proofs::Chains::asks_nothing))]
    fn pass_on<S: Site, L: Ledger, R: Wait>(
        &mut self,
        rt: &R,
        registry: &Registry,
        number: usize,
        given: Given,
        asker: &mut Asker<'_, S, L>,
    )
        ensures { HasAsked S.Calls S.Lists S.Begins S.Watches asker.old asker.new }
    {
        if number == self.number {
            self.connections
                .begin(rt, registry, given, asker, &self.tick);
        } else {
            self.give(rt, registry, number, given, asker);
        }
    }

    /// Lets a connection begin that the loop accepted, or passes it on.
    #[tactic(auto, using(crate::proofs::Chains::asks_on, crate::proofs::Chains::asks_nothing))]
    fn begin_accepted<S: Site, L: Ledger, R: Wait>(
        &mut self,
        rt: &R,
        registry: &Registry,
        accepting: &mut Accepting,
        given: Given,
        asker: &mut Asker<'_, S, L>,
    )
        ensures { HasAsked S.Calls S.Lists S.Begins S.Watches asker.old asker.new }
    {
        let returned = self
            .connections
            .begin_here(rt, registry, given, asker, &self.tick);
        if let Some(given) = returned {
            let number = accepting.place_of(self.number, self.loops, &given);
            self.pass_on(rt, registry, number, given, asker);
        }
    }

    /// Lets a connection begin that the loop was given.
    #[tactic(auto, using(crate::proofs::Chains::asks_on, crate::proofs::Chains::asks_nothing))]
    fn begin<S: Site, L: Ledger, R: Wait>(
        &mut self,
        rt: &R,
        registry: &Registry,
        accepting: &mut Option<Accepting>,
        given: Given,
        asker: &mut Asker<'_, S, L>,
    )
        ensures { HasAsked S.Calls S.Lists S.Begins S.Watches asker.old asker.new }
    {
        if self.loops.count() > 1 {
            if let Some(accepting) = accepting {
                self.begin_accepted(rt, registry, accepting, given, asker);
                return;
            }
        }
        self.connections
            .begin(rt, registry, given, asker, &self.tick);
    }

    /// Lets the connections begin that the loop was given, of which no more wait than an inbox has room for. For those that come meanwhile it is
    /// woken again.
    #[tactic(auto, using(crate::proofs::Chains::asks_on, crate::proofs::Chains::asks_nothing))]
    fn take_given<S: Site, L: Ledger, R: Wait>(
        &mut self,
        rt: &R,
        registry: &Registry,
        accepting: &mut Option<Accepting>,
        asker: &mut Asker<'_, S, L>,
    )
        ensures { HasAsked S.Calls S.Lists S.Begins S.Watches asker.old asker.new }
    {
        self.wakes.begin_to_take();
        for _ in 0..INBOX {
            match self.wakes.take(rt) {
                Some(given) => self.begin(rt, registry, accepting, given, asker),
                None => return,
            }
        }
    }

    /// Lets connections go on of which the system reports something, and returns whether it reports a new one.
    #[tactic(auto, using(crate::proofs::Chains::asks_on, crate::proofs::Chains::asks_nothing))]
    fn heed<S: Site, L: Ledger>(&mut self, events: &Events, asker: &mut Asker<'_, S, L>) -> bool
        ensures { HasAsked S.Calls S.Lists S.Begins S.Watches asker.old asker.new }
    {
        let mut is_called = false;
        for event in events {
            let token = event.token();
            if token == LISTENER {
                is_called = true;
            } else if token != WAKER {
                self.connections.go_on(event, asker, &self.tick);
            }
        }
        is_called
    }

    /// Writes on what stopped first so that others go on meanwhile, looks at the watches that may have something to see, and at times at those whose turn
    /// it is; looks at deadlines at times.
    #[tactic(auto, using(crate::proofs::Chains::asks_on, crate::proofs::Chains::asks_nothing))]
    fn tend<S: Site, L: Ledger>(&mut self, asker: &mut Asker<'_, S, L>)
        ensures { HasAsked S.Calls S.Lists S.Begins S.Watches asker.old asker.new }
    {
        self.connections.write_paused::<S>(self.tick.now);
        self.connections.hear_writes();
        self.connections.look_due(asker, self.tick.now);
        if self.tick.is_after(self.swept, SWEEP_MILLISECONDS) {
            self.swept = self.tick.now;
            self.connections.leave_late::<S>(&self.tick);
        }
        if self.tick.is_after(self.turned, TURN_MILLISECONDS) {
            self.turned = self.tick.now;
            self.connections.look_in_turn(asker, self.tick.now);
        }
    }

    /// Accepts connections where the system reports new ones, or one may wait that it does not tell of.
    #[tactic(auto, using(crate::proofs::Chains::asks_on, crate::proofs::Chains::asks_nothing))]
    fn accept_called<S: Site, L: Ledger, R: Wait>(
        &mut self,
        rt: &R,
        registry: &Registry,
        accepting: &mut Option<Accepting>,
        is_called: bool,
        asker: &mut Asker<'_, S, L>,
    )
        ensures { HasAsked S.Calls S.Lists S.Begins S.Watches asker.old asker.new }
    {
        if let Some(accepting) = accepting {
            if is_called || accepting.is_held_up() || accepting.has_more() {
                self.accept_waiting(rt, registry, accepting, asker);
            }
        }
    }

    /// Accepts connections that wait, and lets those begin that the loop was given.
    #[tactic(auto, using(crate::proofs::Chains::asks_on, crate::proofs::Chains::asks_nothing))]
    fn take_in<S: Site, L: Ledger, R: Wait>(
        &mut self,
        rt: &R,
        registry: &Registry,
        accepting: &mut Option<Accepting>,
        is_called: bool,
        asker: &mut Asker<'_, S, L>,
    )
        ensures { HasAsked S.Calls S.Lists S.Begins S.Watches asker.old asker.new }
    {
        self.accept_called(rt, registry, accepting, is_called, asker);
        self.take_given(rt, registry, accepting, asker);
    }

    /// Lets connections go on of which the system reports something, and others begin.
    #[tactic(auto, using(crate::proofs::Chains::asks_on, crate::proofs::Chains::asks_nothing))]
    fn attend<S: Site, L: Ledger, R: Wait>(
        &mut self,
        rt: &R,
        registry: &Registry,
        events: &Events,
        accepting: &mut Option<Accepting>,
        asker: &mut Asker<'_, S, L>,
    )
        ensures { HasAsked S.Calls S.Lists S.Begins S.Watches asker.old asker.new }
    {
        let is_called = self.heed(events, asker);
        self.take_in(rt, registry, accepting, is_called, asker);
    }

    /// Goes one round. Watches are looked at last, so that they see what was written in it.
    #[tactic(auto, using(crate::proofs::Chains::asks_on, crate::proofs::Chains::asks_nothing))]
    fn go<S: Site, L: Ledger, R: Wait + Clock>(
        &mut self,
        rt: &R,
        poll: &mut Poll,
        events: &mut Events,
        accepting: &mut Option<Accepting>,
        asker: &mut Asker<'_, S, L>,
    ) -> io::Result<()>
        ensures { HasAsked S.Calls S.Lists S.Begins S.Watches asker.old asker.new }
    {
        let has_more = accepting.as_ref().is_some_and(Accepting::has_more);
        self.await_events(poll, events, self.longest_wait(has_more))?;
        self.tick = Tick::now(rt)?;
        self.attend(rt, poll.registry(), events, accepting, asker);
        self.tend(asker);
        Ok(())
    }

    /// Accepts no more, and ends all connections, as far as their peers let it within a while.
    #[tactic(auto, using(crate::proofs::Chains::asks_on, crate::proofs::Chains::asks_nothing))]
    fn stop<S: Site, L: Ledger, R: Wait + Clock>(
        &mut self,
        rt: &R,
        poll: &mut Poll,
        events: &mut Events,
        accepting: &mut Option<Accepting>,
        asker: &mut Asker<'_, S, L>,
    ) -> io::Result<()>
        ensures { HasAsked S.Calls S.Lists S.Begins S.Watches asker.old asker.new }
    {
        drop(accepting.take());
        self.tick = Tick::now(rt)?;
        let began = self.tick.now;
        self.take_given(rt, poll.registry(), accepting, asker);
        self.connections.stop(asker, &self.tick);
        for _ in 0..u64::MAX {
            if self.connections.is_empty() || self.tick.is_after(began, STOP_MILLISECONDS) {
                break;
            }
            wait(poll, events, self.stop_wait())?;
            self.tick = Tick::now(rt)?;
            self.heed(events, asker);
            self.connections.write_paused::<S>(self.tick.now);
        }
        Ok(())
    }

    /// Goes round until all loops are to stop, and then ends all connections.
    #[tactic(auto, using(crate::proofs::Chains::asks_on, crate::proofs::Chains::asks_nothing))]
    pub(crate) fn run<S: Site, L: Ledger, R: Wait + Clock>(
        &mut self,
        rt: &R,
        poll: &mut Poll,
        events: &mut Events,
        accepting: &mut Option<Accepting>,
        asker: &mut Asker<'_, S, L>,
    ) -> io::Result<()>
        ensures { HasAsked S.Calls S.Lists S.Begins S.Watches asker.old asker.new }
    {
        for _ in rt.forever() {
            if self.loops.is_stopped() {
                break;
            }
            self.go(rt, poll, events, accepting, asker)?;
        }
        self.stop(rt, poll, events, accepting, asker)
    }
}

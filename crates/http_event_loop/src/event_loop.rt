//! A loop that answers connections at a server until all loops are to stop.
ghost use Rattle.std.specs.Prelude.{IfOk};
ghost use Rattle.http_event_loop.specs.Asked.{HasAsked, IsNewAsker};

use crate::accepting::{Accepting, Listening};
use crate::asker::Asker;
use crate::loops::Loops;
use crate::open_connections::Connections;
use crate::place::LoopPlace;
use crate::rounds::Rounds;
use crate::ticks::Tick;
use crate::turns::Turns;
use api::Site;
use mio::{Events, Poll};
use request_parts::table::Routes;
use std::alloc::Global;
use std::io;
use std::sync::ledger::Ledger;
use std::sync::{Mutex, Wait};
use std::time::Clock;

/// How many events one wait gives at most.
const EVENTS: usize = 1024;

/// A loop that answers connections at a server, with what it needs to run on a thread of its own. It holds connections as long as it runs.
#[derive(Drop)]
pub struct EventLoop<'a, S, L: Ledger> {
    /// What it asks the server.
    pub asker: Asker<'a, S, L>,
    alloc: Global,
    routes: Routes,
    loops: &'a Loops,
    number: usize,
    poll: Poll,
    accepting: Option<Accepting>,
}

/// Returns the routes of a loop, and what accepts connections for it where it is to listen.
fn routes_and_accepting(
    alloc: Global,
    poll: &Poll,
    listening: Option<Listening>,
) -> io::Result<(Routes, Option<Accepting>)> {
    let accepting = match listening {
        Some(listening) => Some(Accepting::new(poll, listening)?),
        None => None,
    };
    Ok((Routes::new(alloc)?, accepting))
}

impl<'a, S: Drop, L: Ledger> EventLoop<'a, S, L> {
    /// Returns the loop of this place, which takes the connections that it is given, each with one of the turns.
    ///
    /// Where it is to listen it accepts connections, for itself and the others: no more than the limit, if there is one, after the last of which
    /// all loops stop. What asks for a watch, or is not whole, it gives to the others, if there are any; what asks for a list to one that is
    /// free, or else to the others by turns, and at times to itself. Where no connection can be accepted, as the system has no descriptor or
    /// 10,000 are open, it is tried again once a connection has ended, and at times.
    pub fn new<R: Wait>(
        rt: &R,
        alloc: Global,
        loops: &'a Loops,
        turns: &'a Mutex<Turns<L>>,
        place: LoopPlace,
        listening: Option<Listening>,
        site: S,
    ) -> io::Result<EventLoop<'a, S, L>>
        ensures { IfOk result (λ made. IsNewAsker site made.asker) }
    {
        let LoopPlace { poll, number } = place;
        if listening.is_some() {
            loops.say_accepting(number);
        }
        match routes_and_accepting(alloc, &poll, listening) {
            Ok((routes, accepting)) => Ok(EventLoop {
                asker: Asker::new(rt, site, turns),
                alloc,
                routes,
                loops,
                number,
                poll,
                accepting,
            }),
            Err(error) => Err(error),
        }
    }
}

impl<S: Site, L: Ledger> EventLoop<'_, S, L> {
    /// Goes its rounds until all loops are to stop.
    #[tactic(auto, using(crate::proofs::Chains::asks_on, crate::proofs::Chains::asks_nothing))]
    fn run_rounds<R: Wait + Clock>(
        &mut self,
        rt: &R,
        events: &mut Events,
        tick: Tick,
    ) -> io::Result<()>
        ensures { HasAsked S.Calls S.Lists S.Begins S.Watches self.old.asker self.new.asker }
    {
        let EventLoop {
            asker,
            alloc,
            routes,
            loops,
            number,
            poll,
            accepting,
        } = self;
        let Some(wakes) = loops.wakes(*number) else {
            return Ok(());
        };
        let connections = Connections::new(*alloc, routes, loops, wakes);
        let mut rounds = Rounds::new(loops, wakes, *number, connections, tick);
        let outcome = rounds.run(rt, poll, events, accepting, asker);
        drop(rounds);
        outcome
    }

    /// Runs until all loops are to stop.
    #[tactic(auto, using(crate::proofs::Chains::asks_on, crate::proofs::Chains::asks_nothing))]
    fn run_until_stop<R: Wait + Clock>(&mut self, rt: &R) -> io::Result<()>
        ensures { HasAsked S.Calls S.Lists S.Begins S.Watches self.old.asker self.new.asker }
    {
        let tick = Tick::now(rt)?;
        let mut events = Events::with_capacity(self.alloc, EVENTS)?;
        if self.accepting.as_ref().is_some_and(Accepting::is_over) {
            self.loops.end();
        }
        self.run_rounds(rt, &mut events, tick)
    }

    /// Answers connections until a stop: one that is asked for, or the end of all connections of those that are counted but watches. Then it
    /// takes no more; requests that are whole are answered, watches are told what has been written and that they end, and all others are left,
    /// within two seconds, as is a watch whose peer has not taken what it was to be told before. An error of the system ends it and all other loops.
    pub fn run<R: Wait + Clock>(&mut self, rt: &R) -> io::Result<()>
        ensures { HasAsked S.Calls S.Lists S.Begins S.Watches self.old.asker self.new.asker }
    {
        let outcome = self.run_until_stop(rt);
        self.loops.stop();
        outcome
    }
}

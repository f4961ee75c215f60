//! What a loop asks its server.
ghost use Rattle.std.specs.Prelude.{◌≡◌, ◌<◌, ◌≤◌, ◌+◌, true, false};
ghost use Rattle.request_decoding.specs.Asked.{asked_seen};
ghost use Rattle.http_connection.specs.Looking.{LooksFrom};
ghost use Rattle.http_connection.specs.Arriving.{IsAskedBySome, MayStand};
ghost use Rattle.http_connection.specs.Phases.{Answers, StandsAnswered, StandsLooked};
ghost use Rattle.http_connection.specs.declared.phase.ConnectionPhase.TheVariants as phase;
ghost use Rattle.http_event_loop.specs.Asked.{HasAsked, IsNewAsker};

use crate::asker::Asker;
use crate::turns::Turns;
use api::{Served, Site};
use http_connection::{ConnectionPhase, Watching, answer, look_on};
use metadata_values::moments::Moment;
use request_decoding::Asked;
use std::alloc::Global;
use std::sync::ledger::Ledger;
use std::sync::{Mutex, Wait};

impl<'a, S, L: Ledger> Asker<'a, S, L> {
    /// Returns what asks a server, and has not yet.
    pub fn new<R: Wait>(rt: &R, site: S, turns: &'a Mutex<Turns<L>>) -> Asker<'a, S, L>
        ensures { IsNewAsker site result }
    {
        let taken = turns.lock(rt).take_none();
        Asker {
            site,
            turns,
            taken,
            asked: 0,
        }
    }

    /// Takes a turn for a connection, and returns whether one was left.
    pub fn take<R: Wait>(&mut self, rt: &R) -> bool
        ensures site { self.new.site ≡ self.old.site }
        ensures asked { self.new.asked ≡ self.old.asked }
        ensures taken { result ≡ true → self.new.taken.count ≡ self.old.taken.count + 1 }
        ensures none { result ≡ false → self.new.taken.count ≡ self.old.taken.count }
    {
        let turn = self.turns.lock(rt).take();
        match turn {
            Some(turn) => self.taken.add(turn),
            None => false,
        }
    }
}

impl<S: Site, L: Ledger> Asker<'_, S, L> {
    /// Asks what a connection asks whose request is whole, and returns where it then stands.
    #[tactic(auto, using(crate::proofs::Chains::asks_one, crate::proofs::Chains::asks_nothing))]
    pub fn answer(&mut self, alloc: Global, asked: Asked, moment: Moment) -> ConnectionPhase
        requires asks { IsAskedBySome (asked_seen asked) }
        ensures asked { HasAsked S.Calls S.Lists S.Begins S.Watches self.old self.new }
        ensures once { self.new.asked ≤ self.old.asked + 1 }
        ensures taken { self.new.taken ≡ self.old.taken }
        ensures counts { self.old.asked < self.old.taken.count → self.new.asked ≡ self.old.asked + 1 }
        ensures answers { self.old.asked < self.old.taken.count
            → Answers S.Calls S.Lists S.Begins S.Watches moment self.old.site self.new.site (asked_seen asked) result }
        ensures stands { self.old.asked < self.old.taken.count
            → StandsAnswered S.Calls S.Lists S.Begins S.Watches moment self.old.site self.new.site (phase.Asked asked) result }
        ensures led { MayStand result }
    {
        if self.asked >= self.taken.count {
            // By a call: laid out here, the drop of all that can be asked would cost more to prove than the rest.
            drop(asked);
            return ConnectionPhase::Closing(Served::NotAsked);
        }
        self.asked += 1;
        answer(alloc, asked, &mut self.site, moment)
    }

    /// Takes one look of a watch, and returns where its connection then stands.
    #[tactic(auto, using(crate::proofs::Chains::asks_look))]
    pub fn look(&mut self, alloc: Global, watching: Watching) -> ConnectionPhase
        ensures asked { HasAsked S.Calls S.Lists S.Begins S.Watches self.old self.new }
        ensures looks { LooksFrom S.Watches watching self.old.site self.new.site watching.at result }
        ensures stands { StandsLooked S.Calls S.Lists S.Begins S.Watches self.old.site self.new.site (phase.Watching watching) result }
        ensures led { MayStand result }
    {
        look_on(alloc, watching, &mut self.site)
    }
}

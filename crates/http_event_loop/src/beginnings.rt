//! Connections that begin.
ghost use Rattle.std.specs.Prelude.{◌≡◌, ◌+◌, IfSome, true, false};
ghost use Rattle.http_event_loop.specs.Asked.{HasAsked, IsPaid};

use crate::asker::Asker;
use crate::given::Given;
use crate::held::Held;
use crate::open_connections::Connections;
use crate::ticks::Tick;
use api::Site;
use mio::{Interest, Registry, Token};
use std::sync::Wait;
use std::sync::ledger::Ledger;
use std::time::Instant;

/// Takes a turn for a connection, and returns whether one was left.
fn has_turn<S: Site, L: Ledger, R: Wait>(rt: &R, asker: &mut Asker<'_, S, L>) -> bool
    ensures asked { HasAsked S.Calls S.Lists S.Begins S.Watches asker.old asker.new }
    ensures same { asker.new.asked ≡ asker.old.asked }
    ensures taken { result ≡ true → asker.new.taken.count ≡ asker.old.taken.count + 1 }
    ensures none { result ≡ false → asker.new.taken.count ≡ asker.old.taken.count }
{
    asker.take(rt)
}

impl Connections<'_> {
    /// Has a connection take its turn, and lets it go on as far as that goes now. One for which no turn is left is over.
    #[tactic(auto, using(crate::proofs::Chains::asks_on, crate::proofs::Chains::asks_nothing))]
    fn ask<S: Site, L: Ledger, R: Wait>(
        &self,
        rt: &R,
        held: &mut Held,
        asker: &mut Asker<'_, S, L>,
        tick: &Tick,
    )
        ensures asked { HasAsked S.Calls S.Lists S.Begins S.Watches asker.old asker.new }
        ensures paid { IsPaid asker.old asker.new }
    {
        if has_turn(rt, asker) {
            held.go_on(self.alloc, self.routes, asker, tick);
        } else {
            held.leave();
        }
    }

    /// Has a connection take its turn, and lets it go on as far as that goes now. It is held if it is not over by then.
    #[tactic(auto, using(crate::proofs::Chains::asks_on, crate::proofs::Chains::asks_nothing))]
    fn answer<S: Site, L: Ledger, R: Wait>(
        &mut self,
        rt: &R,
        registry: &Registry,
        held: Held,
        asker: &mut Asker<'_, S, L>,
        tick: &Tick,
    )
        ensures asked { HasAsked S.Calls S.Lists S.Begins S.Watches asker.old asker.new }
        ensures paid { IsPaid asker.old asker.new }
    {
        let mut held = held;
        self.ask(rt, &mut held, asker, tick);
        self.hold(registry, held, tick.now);
    }

    /// Lets a connection begin that the loop is given: it takes its turn, and goes on as far as that goes now. It is held if it is not over by then.
    #[tactic(auto, using(crate::proofs::Chains::asks_on, crate::proofs::Chains::asks_nothing))]
    pub(crate) fn begin<S: Site, L: Ledger, R: Wait>(
        &mut self,
        rt: &R,
        registry: &Registry,
        given: Given,
        asker: &mut Asker<'_, S, L>,
        tick: &Tick,
    )
        ensures asked { HasAsked S.Calls S.Lists S.Begins S.Watches asker.old asker.new }
        ensures paid { IsPaid asker.old asker.new }
    {
        let held = Held::new(self.alloc, given);
        self.answer(rt, registry, held, asker, tick);
    }

    /// Lets a connection begin that this loop accepted: it is read, and answered if it asks for one object, or is refused. One that asks for what
    /// may take long, or whose request is not whole, is for another loop, and is returned.
    #[tactic(auto, using(crate::proofs::Chains::asks_on, crate::proofs::Chains::asks_nothing))]
    pub(crate) fn begin_here<S: Site, L: Ledger, R: Wait>(
        &mut self,
        rt: &R,
        registry: &Registry,
        given: Given,
        asker: &mut Asker<'_, S, L>,
        tick: &Tick,
    ) -> Option<Given>
        ensures asked { HasAsked S.Calls S.Lists S.Begins S.Watches asker.old asker.new }
        ensures paid { IsPaid asker.old asker.new }
        ensures returned { IfSome result (λ _. asker.new ≡ asker.old) }
    {
        let mut held = Held::new(self.alloc, given);
        held.turn::<S>(self.alloc, self.routes, tick.now);
        match held.take_begun() {
            Some(begun) => Some(held.into_given(begun)),
            None => {
                self.answer(rt, registry, held, asker, tick);
                None
            }
        }
    }

    /// Holds a connection that is not over, if there is room and the system takes it.
    fn hold(&mut self, registry: &Registry, held: Held, now: Instant) {
        match self.held_at(registry, held, now) {
            Some(key) => self.settle(key, now),
            None => self.loops.leave(),
        }
    }

    /// Holds a connection that is not over, and returns its key.
    fn held_at(&mut self, registry: &Registry, held: Held, now: Instant) -> Option<usize> {
        let mut held = held;
        if held.is_to_be_held(now) {
            self.inserted(registry, held)
        } else {
            drop(held);
            None
        }
    }

    /// Holds a connection, and returns its key, if there is room and the system takes it.
    fn inserted(&mut self, registry: &Registry, held: Held) -> Option<usize> {
        let key = self.held.insert(held).ok()?;
        if self.is_registered(registry, key) {
            return Some(key);
        }
        drop(self.held.try_remove(key));
        None
    }

    /// Has the system report what a connection can do, and returns whether it does.
    fn is_registered(&mut self, registry: &Registry, key: usize) -> bool {
        let both = Interest::READABLE | Interest::WRITABLE;
        match self.held.get_mut(key) {
            Some(held) => registry
                .register(&mut held.stream, Token(key), both)
                .is_ok(),
            None => false,
        }
    }
}

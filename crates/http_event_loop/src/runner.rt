//! What runs on a thread of its own.
use crate::event_loop::EventLoop;
use crate::fault::{ListenFault, not_listening};
use api::Site;
use std::sync::Wait;
use std::sync::ledger::Ledger;
use std::time::Clock;

/// What runs on a thread of its own, until all of its row are to stop.
pub trait Runner {
    /// What a run may make of the state.
    ghost step: { Self → Self → Type 0 };

    /// Runs until all of the row are to stop. The error is one of the system, after which all of them stop.
    fn run<R: Wait + Clock>(&mut self, rt: &R) -> Result<(), ListenFault>
        ensures { step self.old self.new };
}

impl<S: Site, L: Ledger> Runner for EventLoop<'_, S, L> {
    ghost use Rattle.http_event_loop.specs.Asked.{HasAsked};

    ghost step = { λ before after. HasAsked S.Calls S.Lists S.Begins S.Watches before.asker after.asker };

    fn run<R: Wait + Clock>(&mut self, rt: &R) -> Result<(), ListenFault> {
        match EventLoop::run(self, rt) {
            Ok(()) => Ok(()),
            Err(error) => Err(not_listening(&error)),
        }
    }
}

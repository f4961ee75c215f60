//! A thread that follows a kind.
use crate::handling::ChangeHandler;
use api_client::Api;
use informer::SharedInformer;
use keyed_queues::Named;
use list_and_watch::{Follower, follow};
use reconciler::Reconciler;
use spec_api::kinds::Kind;
use std::alloc::Global;
use std::sync::Wait;
use std::time::Clock;
use tcp_client::StoppableClock;

/// What follows a kind at the server, and what handles each change once it is published.
#[derive(Drop)]
pub(crate) struct KindFollower<'a, R: Wait, C, K: Named, A: Drop> {
    pub(crate) alloc: Global,
    pub(crate) kind: Kind,
    pub(crate) follower: Follower<SharedInformer<'a, R>>,
    pub(crate) api: A,
    pub(crate) handler: ChangeHandler<'a, R, C, K>,
}

impl<'a, R: Wait + Clock, K: Named, C: Reconciler<K>, A: Api + Drop> KindFollower<'a, R, C, K, A> {
    ghost use Rattle.std.specs.Prelude.{◌≡◌};
    ghost use Rattle.shared_keyed_board.specs.Passes.{key_in_hand, sight};
    ghost use Rattle.controller_runtime.specs.Runs.{OnlyAddsOwed};
    ghost use Rattle.controller_runtime.specs.Told.{IsToldAll};

    /// Follows the kind until the run is over. Its pass adds keys that changes owe, and does nothing else: those of each publish once, in order.
    pub(crate) fn run(&mut self)
        ensures told { IsToldAll K.order K.says C.owes self.old.follower self.old.handler.revision (sight K.says self.old.handler.pass) self.new.follower (sight K.says self.new.handler.pass) }
        ensures board { self.new.handler.board.now ≡ self.old.handler.board.now }
        ensures key { key_in_hand K.says self.new.handler.pass ≡ key_in_hand K.says self.old.handler.pass }
        ensures adds { OnlyAddsOwed C.owes K.says (sight K.says self.old.handler.pass) (sight K.says self.new.handler.pass) }
    {
        let KindFollower {
            alloc,
            kind,
            follower,
            api,
            handler,
        } = self;
        let mut clock = StoppableClock::new(handler.rt, handler.under_way.over);
        follow(*alloc, *kind, follower, api, &mut clock, handler);
    }
}

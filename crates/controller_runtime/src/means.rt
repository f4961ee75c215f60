//! By what a worker works.
use crate::signs::Over;
use crate::under_way::UnderWay;
use api_client::Api;
use indexer::Indexed;
use informer::Listers;
use keyed_board::Outcome;
use keyed_queues::Named;
use object_keys::PerKind;
use reconciler::Reconciler;
use shared_keyed_board::{BoardPass, KeyInHand, SharedKeyedBoard};
use std::alloc::Global;
use std::sync::Wait;
use std::time::Clock;
use tcp_client::StoppableClock;

/// How many milliseconds a worker waits for memory.
const PAUSE_MILLISECONDS: u64 = 50;

/// By what a worker works, beside its pass.
#[derive(Drop)]
pub(crate) struct Means<'a, R, C, A: Drop> {
    pub(crate) rt: &'a R,
    pub(crate) alloc: Global,
    pub(crate) controller: &'a C,
    pub(crate) under_way: &'a UnderWay<'a>,
    pub(crate) clock: StoppableClock<'a, R>,
    pub(crate) listers: Listers,
    pub(crate) api: A,
}

impl<R: Wait + Clock, C, A: Api + Drop> Means<'_, R, C, A> {
    ghost use Rattle.std.specs.Prelude.{◌≡◌, IfOk, IfErr, OnOk, OnErr, Some, None};
    ghost use Rattle.shared_keyed_board.specs.Passes.{IsPassAt, key_in_hand, sight};
    ghost use Rattle.informer.specs.Looked.{AreKnown};
    ghost use Rattle.keyed_board.specs.Steps.{finish};
    ghost use Rattle.keyed_board.specs.declared.outcome.Outcome.TheVariants.{Done};
    ghost use Rattle.controller_runtime.specs.Reconciled.{OnlyTicks, Makes, EndsAsShown, Reconciles};

    /// Waits a while for memory, or until the run is over.
    pub(crate) fn rest(&self) -> Result<(), Over> {
        self.under_way.rest(self.rt, PAUSE_MILLISECONDS)
    }

    /// Looks at what is published of all kinds, as soon as there is memory for it, unless the run is over before that.
    fn look(&mut self) -> Result<PerKind<Indexed>, Over>
        ensures { IfOk result (λ shown. AreKnown self.new.listers.listers shown) }
    {
        for _ in self.rt.forever() {
            if let Ok(Some(shown)) = self.listers.all_published() {
                return Ok(shown);
            }
            self.rest()?;
        }
        unreachable!()
    }

    /// Reconciles a key, by what is published, unless the run is over before that: what is published then may be another server's, or the key be
    /// of one that is there no more.
    fn reconcile<K: Named>(&mut self, key: &K) -> Result<Outcome, Over>
    where
        C: Reconciler<K>,
        ensures { IfOk result (λ outcome. EndsAsShown C.ends key.now self.new.listers.listers outcome) }
    {
        self.under_way.check()?;
        let shown = self.look()?;
        Ok(
            self.controller
                .reconcile(self.alloc, key, &shown, &mut self.api),
        )
    }

    /// Lets time pass at the board, as the clock shows it, if there is memory for the keys that come due.
    fn tick<K: Named>(&mut self, board: &SharedKeyedBoard<K>, pass: &mut BoardPass<K>)
        requires { IsPassAt board.now pass.old }
        ensures pass { IsPassAt board.now pass.new }
        ensures key { key_in_hand K.says pass.new ≡ key_in_hand K.says pass.old }
        ensures ticks { OnlyTicks (sight K.says pass.old) (sight K.says pass.new) }
        ensures looked { self.new.listers.listers ≡ self.old.listers.listers }
    {
        let now = self.clock.milliseconds();
        let _ = board.tick(self.rt, pass, now);
    }

    /// Gives back a key, with how its reconcile ended, once. The error is that there is no memory to note that, and the key is still in hand.
    fn try_finish<K: Named>(
        &mut self,
        board: &SharedKeyedBoard<K>,
        pass: &mut BoardPass<K>,
        hand: KeyInHand<K>,
        outcome: Outcome,
    ) -> Result<(), KeyInHand<K>>
        requires pass { IsPassAt board.now pass.old }
        requires mine { key_in_hand K.says pass.old ≡ Some (K.says hand) }
        ensures pass { IsPassAt board.now pass.new }
        ensures ok { OnOk result (key_in_hand K.says pass.new ≡ None) }
        ensures finished { OnOk result (Makes (finish (K.says hand) outcome) (sight K.says pass.old) (sight K.says pass.new)) }
        ensures still { IfErr result (λ back. (back ≡ hand) × (key_in_hand K.says pass.new ≡ key_in_hand K.says pass.old)) }
        ensures ticks { OnErr result (OnlyTicks (sight K.says pass.old) (sight K.says pass.new)) }
        ensures looked { self.new.listers.listers ≡ self.old.listers.listers }
    {
        self.tick(board, pass);
        board.finish(self.rt, pass, hand, outcome)
    }

    /// Gives back a key, with how its reconcile ended, as soon as there is memory to note that. Where the run is over before that, the key counts
    /// as done.
    fn finish<K: Named>(
        &mut self,
        board: &SharedKeyedBoard<K>,
        pass: &mut BoardPass<K>,
        hand: KeyInHand<K>,
        outcome: Outcome,
    ) -> Result<(), Over>
        requires pass { IsPassAt board.now pass.old }
        requires mine { key_in_hand K.says pass.old ≡ Some (K.says hand) }
        ensures pass { IsPassAt board.now pass.new }
        ensures free { key_in_hand K.says pass.new ≡ None }
        ensures finished { OnOk result (Makes (finish (K.says hand) outcome) (sight K.says pass.old) (sight K.says pass.new)) }
        ensures over { OnErr result (Makes (finish (K.says hand) Done) (sight K.says pass.old) (sight K.says pass.new)) }
        ensures looked { self.new.listers.listers ≡ self.old.listers.listers }
    {
        let mut hand = hand;
        for _ in self.rt.forever() {
            match self.try_finish(board, pass, hand, outcome) {
                Ok(()) => return Ok(()),
                Err(back) => hand = back,
            }
            if let Err(over) = self.rest() {
                board.done(self.rt, pass, hand);
                return Err(over);
            }
        }
        unreachable!()
    }

    /// Reconciles the key in a hand, by what is published, and gives it back with how that ended; where the run is over before that, as done.
    pub(crate) fn turn<K: Named>(
        &mut self,
        board: &SharedKeyedBoard<K>,
        pass: &mut BoardPass<K>,
        hand: KeyInHand<K>,
    ) -> Result<(), Over>
    where
        C: Reconciler<K>,
        requires pass { IsPassAt board.now pass.old }
        requires mine { key_in_hand K.says pass.old ≡ Some (K.says hand) }
        ensures pass { IsPassAt board.now pass.new }
        ensures free { key_in_hand K.says pass.new ≡ None }
        ensures reconciled { OnOk result (Reconciles C.ends K.says hand self.new.listers.listers (sight K.says pass.old) (sight K.says pass.new)) }
        ensures over { OnErr result (Makes (finish (K.says hand) Done) (sight K.says pass.old) (sight K.says pass.new)) }
    {
        match self.reconcile(hand.key()) {
            Ok(outcome) => self.finish(board, pass, hand, outcome),
            Err(over) => {
                board.done(self.rt, pass, hand);
                Err(over)
            }
        }
    }
}

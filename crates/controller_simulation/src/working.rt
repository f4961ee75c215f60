//! What workers do: they take keys, look, ask one request after another, and give their keys back.
use crate::fates::Fate;
use crate::places::{is_idle, put, taken_out, turn_of};
use crate::turns::{ControllerTurn, Next};
use crate::worlds::ControllerWorld;
use keyed_board::Outcome;
use keyed_queues::Named;
use reconciler::Reconciler;
use spec_api::kinds::Kind;
use std::alloc::{AllocError, Global};

/// What became of a step in which a worker is to take a key.
#[derive(Clone, Copy)]
pub enum Taking {
    /// Nothing: there is no such worker, it is in a turn, or the first list of some kind is not published yet.
    NotOpen,
    /// No key waits.
    NoneWaits,
    /// It took a key.
    Took,
}

/// What became of a step in which a worker is to ask something.
#[derive(Clone, Copy)]
pub enum Issued {
    /// Nothing: it is in no turn, or has not looked at each kind yet, or its reconcile ends.
    NotOpen,
    /// It asked it: its turn has what, and what came of it.
    Made,
    /// Its reconcile, answered as before, asked something else than before.
    Differs,
}

impl<K: Named> ControllerWorld<K> {
    ghost use Rattle.std.specs.Prelude.{◌≡◌, IfOk, IfSome, OnErr, OnOk, is_some, true};
    ghost use Rattle.keyed_board.specs.Said.{said};
    ghost use Rattle.controller_simulation.specs.declared.turns.Next.TheVariants.{Ends};
    ghost use Rattle.keyed_queues.specs.Queues.{handed};
    ghost use Rattle.sim_cluster.specs.ClusterStates.{published};
    ghost use Rattle.controller_simulation.specs.Turns.{turn_of};
    ghost use Rattle.controller_simulation.specs.Working.{AsksBy, BeginsTurn, ComesNext, EndsFor, Issues, LooksAt, Takes, can_take, looks_now, taking_of};

    /// Returns whether a worker may take a key. It takes no memory.
    fn can_take(&self, worker: u64) -> bool
        ensures { result ≡ can_take worker self.now.turns.items self.now.cluster }
    {
        is_idle(self.turns.as_slice(), worker) && self.cluster.has_synced()
    }

    /// Has a worker that is in no turn take the key that waits longest, once the first list of each kind was published.
    /// The error is running out of memory, and changes nothing.
    pub fn take(&mut self, alloc: Global, worker: u64) -> Result<Taking, AllocError>
        ensures cluster { self.new.cluster ≡ self.old.cluster }
        ensures takes { IfOk result (λ took. Takes K.order K.says self.old self.new took) }
        ensures turns { IfOk result (λ took. BeginsTurn K.order K.says worker self.old self.new took) }
        ensures taking { IfOk result (λ took. took ≡ taking_of (can_take worker self.old.turns.items self.old.cluster) (handed (said K.order K.says self.old.board).work)) }
        ensures err { OnErr result (said K.order K.says self.new.board ≡ said K.order K.says self.old.board) }
    {
        if !self.can_take(worker) {
            return Ok(Taking::NotOpen);
        }
        let Some(key) = self.board.take()? else {
            return Ok(Taking::NoneWaits);
        };
        put(&mut self.turns, worker, ControllerTurn::begun(alloc, key));
        Ok(Taking::Took)
    }

    /// Has a worker look at what is published of a kind, if it is in a turn and has not looked at that kind yet, and returns whether it did: its turn is
    /// shown that from then on. The error is running out of memory.
    pub fn look(&mut self, worker: u64, kind: Kind) -> Result<bool, AllocError>
        ensures cluster { self.new.cluster ≡ self.old.cluster }
        ensures board { said K.order K.says self.new.board ≡ said K.order K.says self.old.board }
        ensures looks { IfOk result (λ looks. looks ≡ looks_now worker kind self.old.turns.items) }
        ensures turns { IfOk result (λ looks. LooksAt worker kind (published kind self.old.cluster) self.old.turns.items self.new.turns.items looks) }
    {
        let published = self.cluster.published(kind).try_copy()?;
        match taken_out(&mut self.turns, worker) {
            None => Ok(false),
            Some(turn) => {
                let (turn, looks) = turn.looked_at(kind, published);
                put(&mut self.turns, worker, turn);
                Ok(looks)
            }
        }
    }

    /// Returns what comes next in the turn of a worker, if it is in one and has looked at each kind: an end is one that the controller allows by what was
    /// shown. The error is running out of memory.
    pub fn next<C: Reconciler<K>>(
        &self,
        alloc: Global,
        controller: &C,
        worker: u64,
    ) -> Result<Option<Next>, AllocError>
        ensures { IfOk result (λ next. IfSome next (ComesNext C.ends self.now.turns.items worker)) }
    {
        match turn_of(self.turns.as_slice(), worker) {
            Some(turn) if turn.has_looked() => Ok(Some(turn.next(alloc, controller)?)),
            _ => Ok(None),
        }
    }

    /// Asks a line for a worker, and adds it with what comes of it to its turn.
    fn ask(
        &mut self,
        alloc: Global,
        worker: u64,
        line: String,
        fate: Fate,
    ) -> Result<(), AllocError>
        requires { is_some (turn_of worker self.old.turns.items) ≡ true }
        ensures asked { OnOk result (AsksBy fate worker self.old self.new) }
        ensures board { said K.order K.says self.new.board ≡ said K.order K.says self.old.board }
        ensures err { OnErr result (self.new.cluster ≡ self.old.cluster) }
    {
        match taken_out(&mut self.turns, worker) {
            None => Ok(()),
            Some(turn) => {
                let (turn, asked) = turn.asks(alloc, &mut self.cluster, line, fate);
                put(&mut self.turns, worker, turn);
                asked
            }
        }
    }

    /// Has a worker ask what comes next in its turn, and adds that with what comes of it to the turn. The error is running out of memory, and changes
    /// nothing at the server.
    pub fn issue<C: Reconciler<K>>(
        &mut self,
        alloc: Global,
        controller: &C,
        worker: u64,
        fate: Fate,
    ) -> Result<Issued, AllocError>
        ensures issues { IfOk result (Issues fate worker self.old self.new) }
        ensures board { said K.order K.says self.new.board ≡ said K.order K.says self.old.board }
        ensures err { OnErr result (self.new.cluster ≡ self.old.cluster) }
    {
        match self.next(alloc, controller, worker)? {
            Some(Next::Asks(line)) => {
                self.ask(alloc, worker, line, fate)?;
                Ok(Issued::Made)
            }
            Some(Next::Differs) => Ok(Issued::Differs),
            Some(Next::Ends(_)) => Ok(Issued::NotOpen),
            None => Ok(Issued::NotOpen),
        }
    }

    /// Gives back the key of a worker's turn, whose reconcile ends so.
    fn give_back<C: Reconciler<K>>(
        &mut self,
        _controller: &C,
        worker: u64,
        outcome: Outcome,
    ) -> Result<Option<(K, Outcome)>, AllocError>
        requires { ComesNext C.ends self.old.turns.items worker (Ends outcome) }
        ensures cluster { self.new.cluster ≡ self.old.cluster }
        ensures ends { IfOk result (EndsFor K.order K.says C.ends worker self.old self.new) }
        ensures err { OnErr result (said K.order K.says self.new.board ≡ said K.order K.says self.old.board) }
    {
        let Some(turn) = taken_out(&mut self.turns, worker) else {
            return Ok(None);
        };
        match self.board.finish(&turn.key, outcome) {
            Ok(()) => Ok(Some((turn.into_key(), outcome))),
            Err(refused) => {
                put(&mut self.turns, worker, turn);
                Err(refused)
            }
        }
    }

    /// Has a worker whose reconcile ends give its key back, and returns the key and how it ends; nothing where it is in no turn, or its reconcile asks
    /// something. The error is running out of memory, and changes nothing.
    pub fn finish<C: Reconciler<K>>(
        &mut self,
        alloc: Global,
        controller: &C,
        worker: u64,
    ) -> Result<Option<(K, Outcome)>, AllocError>
        ensures cluster { self.new.cluster ≡ self.old.cluster }
        ensures ends { IfOk result (EndsFor K.order K.says C.ends worker self.old self.new) }
        ensures err { OnErr result (said K.order K.says self.new.board ≡ said K.order K.says self.old.board) }
    {
        match self.next(alloc, controller, worker)? {
            Some(Next::Ends(outcome)) => self.give_back(controller, worker, outcome),
            Some(Next::Asks(_)) => Ok(None),
            Some(Next::Differs) => Ok(None),
            None => Ok(None),
        }
    }
}

//! What workers do on the board, and all that they do.
use crate::manager::Manager;
use crate::outcomes::WorkOutcome;
use crate::told_outcomes::{ToldOutcome, key_copy};
use reconcile_turn::{Expected, Turn};
use sim_cluster::Cluster;
use sim_steps::Action;
use std::alloc::{AllocError, Global};

impl Manager {
    ghost use Rattle.std.specs.Prelude.{◌≡◌, IfOk, OnOk, OnErr};
    ghost use Rattle.spec_sim.specs.Managers as managers;
    ghost use Rattle.spec_sim.specs.Managers.{act};
    ghost use Rattle.sim_steps.specs.Actions.{action_of};
    ghost use Rattle.sim_manager.specs.Outcomes.{outcome_of};
    ghost use Rattle.sim_manager.specs.Reached.{client_of, after_request, CanBeAsked};

    /// Has a worker that is in no turn take the key that waits longest, if one waits, once each kind has been published, and tells
    /// of it. The error is running out of memory, and then nothing has changed.
    pub fn take(
        &mut self,
        alloc: Global,
        cluster: &Cluster,
        worker: u64,
    ) -> Result<ToldOutcome, AllocError>
        ensures ok { OnOk result (self.new ≡ (act (client_of cluster.now) worker managers.take self.old).manager) }
        ensures told { IfOk result (λ t. outcome_of t.outcome ≡ (act (client_of cluster.now) worker managers.take self.old).outcome) }
        ensures err { OnErr result (self.new ≡ self.old) }
    {
        if !self.turns.is_idle(worker) || !cluster.has_synced() {
            return ToldOutcome::of(alloc, WorkOutcome::NoStep);
        }
        let key = key_copy(self.board.first())?;
        let told = ToldOutcome::of(alloc, WorkOutcome::Took { worker, key })?;
        if let Some(key) = self.board.take_key()? {
            self.turns.set(worker, Some(Turn::begin(alloc, key)));
        }
        Ok(told)
    }

    /// Has a worker's ReplicaSet expect what its plan makes of pods, where that comes next in its turn. The error is running out of memory,
    /// and then nothing has changed.
    #[tactic(auto, using(crate::proofs::Counts::as_many))]
    pub fn expect(
        &mut self,
        alloc: Global,
        cluster: &Cluster,
        worker: u64,
    ) -> Result<ToldOutcome, AllocError>
        ensures ok { OnOk result (self.new ≡ (act (client_of cluster.now) worker managers.expect self.old).manager) }
        ensures told { IfOk result (λ t. outcome_of t.outcome ≡ (act (client_of cluster.now) worker managers.expect self.old).outcome) }
        ensures err { OnErr result (self.new ≡ self.old) }
    {
        let Some(turn) = self.turns.get(worker) else {
            return ToldOutcome::of(alloc, WorkOutcome::NoStep);
        };
        let Some(expected) = turn.expected(alloc)? else {
            return ToldOutcome::of(alloc, WorkOutcome::NoStep);
        };
        let Expected {
            owner,
            creations,
            deletions,
        } = expected;
        let told = ToldOutcome::of(
            alloc,
            WorkOutcome::Expected {
                worker,
                creations: creations as u64,
                deletions: deletions.len() as u64,
            },
        )?;
        if creations == 0 {
            self.board.expect_deletions(&owner, deletions)?;
        } else {
            self.board.expect_creations(&owner, creations)?;
        }
        self.turns.expect(worker);
        Ok(told)
    }

    /// Ends a worker's turn, where that comes next in it: its key leaves its hands, and unless all was accepted, waits for its delay. The
    /// error is running out of memory, and then nothing has changed.
    pub fn finish(
        &mut self,
        alloc: Global,
        cluster: &Cluster,
        worker: u64,
    ) -> Result<ToldOutcome, AllocError>
        ensures ok { OnOk result (self.new ≡ (act (client_of cluster.now) worker managers.finish self.old).manager) }
        ensures told { IfOk result (λ t. outcome_of t.outcome ≡ (act (client_of cluster.now) worker managers.finish self.old).outcome) }
        ensures err { OnErr result (self.new ≡ self.old) }
    {
        let Some(turn) = self.turns.turn_before(worker, Action::Finish) else {
            return ToldOutcome::of(alloc, WorkOutcome::NoStep);
        };
        let is_accepted = turn.is_accepted();
        let told = ToldOutcome::of(
            alloc,
            WorkOutcome::Finished {
                worker,
                is_accepted,
            },
        )?;
        if is_accepted {
            self.board.done(turn.key());
        } else {
            let undone = turn.taken_back(alloc)?;
            self.board.requeue(turn.key(), undone.as_slice())?;
        }
        self.turns.set(worker, None);
        Ok(told)
    }

    /// Has a worker act, if the action is open: exactly the definition's step. Returns what is told of it. The error is running out
    /// of memory, and then nothing has changed.
    #[tactic(auto, using(crate::proofs::Asking::look_asks_nothing, crate::proofs::Asking::ask_asks_nothing, crate::proofs::Asking::read_asks_nothing, crate::proofs::Asking::expect_asks_nothing, crate::proofs::Asking::finish_asks_nothing))]
    pub fn act(
        &mut self,
        alloc: Global,
        cluster: &mut Cluster,
        worker: u64,
        action: Action,
    ) -> Result<ToldOutcome, AllocError>
        requires asked { CanBeAsked cluster.old worker (action_of action) self.old }
        ensures ok { OnOk result (self.new ≡ (act (client_of cluster.old) worker (action_of action) self.old).manager) }
        ensures told { IfOk result (λ t. outcome_of t.outcome ≡ (act (client_of cluster.old) worker (action_of action) self.old).outcome) }
        ensures cluster { OnOk result (cluster.new ≡ after_request (act (client_of cluster.old) worker (action_of action) self.old).request cluster.old) }
        ensures err { OnErr result (self.new ≡ self.old) }
        ensures untouched { OnErr result (cluster.new ≡ cluster.old) }
    {
        match action {
            Action::Take => self.take(alloc, cluster, worker),
            Action::Look(kind) => self.look(alloc, cluster, worker, kind),
            Action::AskSatisfied => self.ask_satisfied(alloc, cluster, worker),
            Action::ReadLive => self.read_live(alloc, cluster, worker),
            Action::Expect => self.expect(alloc, cluster, worker),
            Action::Issue(delivery) => self.issue(alloc, cluster, worker, delivery),
            Action::Finish => self.finish(alloc, cluster, worker),
        }
    }
}

//! What workers see, and read live.
ghost use Rattle.std.specs.Prelude.{◌≡◌, IfOk, option_map, option_and_then, string_bytes};
ghost use Rattle.spec_api.specs.Metadata.{version};
ghost use Rattle.object_keys.specs.Keys.{key_of};
ghost use Rattle.sim_manager.specs.Reached.{client_of};

use crate::manager::Manager;
use crate::outcomes::WorkOutcome;
use crate::told_outcomes::{ToldOutcome, text_copy};
use meta::Object;
use object_keys::Key;
use reconcile_turn::{NextStep, Sight};
use sim_cluster::Cluster;
use sim_steps::Action;
use spec_api::kinds::Kind;
use std::alloc::{AllocError, Global};

/// Returns what is there under a key at a cluster's server. The error is running out of memory.
fn live_object(alloc: Global, cluster: &Cluster, key: &Key) -> Result<Option<Object>, AllocError>
    ensures { IfOk result (λ f. option_map (λ o. o.value) f ≡ (client_of cluster.now).live (key_of key.now)) }
{
    match cluster.get(key) {
        Some(stored) => Ok(Some(stored.open(alloc)?)),
        None => Ok(None),
    }
}

/// Returns the `resourceVersion` of an object, if there is one. It takes no memory.
fn version_in(object: &Option<Object>) -> Option<&str>
    ensures { option_map (λ v. v.now) result ≡ option_and_then version (option_map (λ o. o.value) object.now) }
{
    match object {
        Some(object) => object.resource_version(),
        None => None,
    }
}

impl Manager {
    ghost use Rattle.std.specs.Prelude.{◌≡◌, IfOk, OnOk, OnErr};
    ghost use Rattle.spec_sim.specs.Managers as managers;
    ghost use Rattle.spec_sim.specs.Managers.{act};
    ghost use Rattle.sim_manager.specs.Outcomes.{outcome_of};
    ghost use Rattle.sim_manager.specs.Reached.{client_of};

    /// Has a worker look at what is published of a kind, where that comes next in its turn. The error is running out of memory, and then
    /// nothing has changed.
    pub fn look(
        &mut self,
        alloc: Global,
        cluster: &Cluster,
        worker: u64,
        kind: Kind,
    ) -> Result<ToldOutcome, AllocError>
        ensures ok { OnOk result (self.new ≡ (act (client_of cluster.now) worker (managers.look kind) self.old).manager) }
        ensures told { IfOk result (λ t. outcome_of t.outcome ≡ (act (client_of cluster.now) worker (managers.look kind) self.old).outcome) }
        ensures err { OnErr result (self.new ≡ self.old) }
    {
        let Some(turn) = self.turns.turn_before(worker, Action::Look(kind)) else {
            return ToldOutcome::of(alloc, WorkOutcome::NoStep);
        };
        let published = cluster.published(kind);
        let told = ToldOutcome::of(
            alloc,
            WorkOutcome::Looked {
                worker,
                kind,
                revision: published.revision(),
            },
        )?;
        let sight = Sight::Looked(kind, published.try_copy()?);
        self.turns.see(worker, sight)?;
        Ok(told)
    }

    /// Tells a worker whether all pods that its ReplicaSet expected have been seen, where it asks that next in its turn. The error is
    /// running out of memory, and then nothing has changed.
    pub fn ask_satisfied(
        &mut self,
        alloc: Global,
        cluster: &Cluster,
        worker: u64,
    ) -> Result<ToldOutcome, AllocError>
        ensures ok { OnOk result (self.new ≡ (act (client_of cluster.now) worker managers.ask_satisfied self.old).manager) }
        ensures told { IfOk result (λ t. outcome_of t.outcome ≡ (act (client_of cluster.now) worker managers.ask_satisfied self.old).outcome) }
        ensures err { OnErr result (self.new ≡ self.old) }
    {
        let Some(turn) = self.turns.turn_before(worker, Action::AskSatisfied) else {
            return ToldOutcome::of(alloc, WorkOutcome::NoStep);
        };
        let key = turn.key().key.try_copy()?;
        let owner = turn.owner(alloc)?;
        let is_satisfied = match &owner {
            Some(owner) => self.board.satisfied(owner),
            None => true,
        };
        let told = ToldOutcome::of(
            alloc,
            WorkOutcome::Satisfied {
                worker,
                is_satisfied,
            },
        )?;
        self.turns.see(worker, Sight::Satisfied(is_satisfied))?;
        if owner.is_none() {
            self.board.forget(&key);
        }
        Ok(told)
    }

    /// Has a worker read live what is there under a key, where that comes next in its turn. The error is running out of memory, and then
    /// nothing has changed.
    pub fn read_live(
        &mut self,
        alloc: Global,
        cluster: &Cluster,
        worker: u64,
    ) -> Result<ToldOutcome, AllocError>
        ensures ok { OnOk result (self.new ≡ (act (client_of cluster.now) worker managers.read_live self.old).manager) }
        ensures told { IfOk result (λ t. outcome_of t.outcome ≡ (act (client_of cluster.now) worker managers.read_live self.old).outcome) }
        ensures err { OnErr result (self.new ≡ self.old) }
    {
        let Some(turn) = self.turns.get(worker) else {
            return ToldOutcome::of(alloc, WorkOutcome::NoStep);
        };
        let NextStep::Read(key) = turn.next() else {
            return ToldOutcome::of(alloc, WorkOutcome::NoStep);
        };
        let found = live_object(alloc, cluster, key)?;
        let told = ToldOutcome::of(
            alloc,
            WorkOutcome::Read {
                worker,
                key: key.try_copy()?,
                version: text_copy(alloc, version_in(&found))?,
            },
        )?;
        self.turns.add_read(worker, found)?;
        Ok(told)
    }
}

//! What is stored of worlds.
ghost use Rattle.std.specs.Prelude.{◌≡◌, IfOk, map};
ghost use Rattle.work_board.specs.Seen.{observation_of};
ghost use Rattle.sim_followers.specs.Notified.{notification_of};
ghost use Rattle.spec_sim.specs.PodObservations.{observations};
ghost use Rattle.object_keys.specs.WorkKeys.{work_key_of};
ghost use Rattle.world.specs.StoredStates.{owed};

use crate::outcomes::Outcome;
use event_handlers::{keys_of, object_in, observations};
use indexer::Indexed;
use line_session::JournalEntry;
use object_keys::WorkKey;
use sim_cluster::Cluster;
use sim_followers::Notification;
use sim_manager::{Manager, ToldOutcome, WorkOutcome};
use sim_steps::{Action, Config, PlaneStep, Step};
use sim_worker_slots::{Issued, Slots};
use spec_api::kinds::Kind;
use std::alloc::{AllocError, Global};
use std::marker::Model;
use std::sync::Arc;
use work_board::Observation;

/// A cluster, and the controller manager beside it.
#[derive(Drop)]
pub(crate) struct StoredWorld {
    cluster: Cluster,
    manager: Manager,
}

impl Model for StoredWorld {
    ghost use Rattle.world.specs.StoredStates.{StoredState, coded_stored};
    ghost use Rattle.world.specs.StoredStanding.{Stands};

    ghost Value = { StoredState };

    ghost coded = { coded_stored };

    ghost view = { λ w. record { cluster = w.cluster; manager = w.manager } };

    ghost invariant = { λ w. Stands (record { cluster = w.cluster; manager = w.manager }) };
}

/// Returns what a change shows of the pods that ReplicaSets expect: nothing, where it is of the first list. The error is running out of
/// memory.
fn shown(alloc: Global, change: &Notification) -> Result<Vec<Observation>, AllocError>
    ensures { IfOk result (λ v. map observation_of v.items ≡ observations (notification_of change.now)) }
{
    if change.is_in_initial_list {
        return Ok(Vec::new(alloc));
    }
    observations(alloc, &change.shift)
}

/// Returns the work keys that a change owes, by what is published now. The error is running out of memory.
fn owed(alloc: Global, cluster: &Cluster, change: &Notification) -> Result<Vec<WorkKey>, AllocError>
    ensures { IfOk result (λ v. map work_key_of v.items ≡ owed cluster.now (notification_of change.now)) }
{
    let shift = &change.shift;
    let looks = cluster.looks()?;
    keys_of(
        alloc,
        shift.key.kind,
        object_in(&shift.old),
        object_in(&shift.new),
        &looks,
    )
}

impl StoredWorld {
    ghost use Rattle.std.specs.Prelude.{◌≡◌, IfOk, OnOk, OnErr, map};
    ghost use Rattle.std.specs.Arc.{arc_value};
    ghost use Rattle.sim_cluster.specs.ClusterStates.{follower, published};
    ghost use Rattle.sim_manager.specs.Reached.{client_of};
    ghost use Rattle.spec_sim.specs.Managers.{act};
    ghost use Rattle.sim_steps.specs.Actions.{action_of};
    ghost use Rattle.sim_steps.specs.PlaneSteps.{plane_step_of};
    ghost use Rattle.sim_steps.specs.Steps.{step_of};
    ghost use Rattle.line_session.specs.Entries.{entry_of};
    ghost use Rattle.sim_worker_slots.specs.Seen.{issued_of};
    ghost use Rattle.world.specs.Outcomes.{outcome_of};
    ghost use Rattle.world.specs.StoredStates.{opened, step, step_cluster, handle_in, after_action, tick_in};

    /// Returns the opening world, in which nothing has happened yet. The error is running out of memory.
    pub(crate) fn open(alloc: Global, config: Config) -> Result<StoredWorld, AllocError>
        ensures { IfOk result (λ w. w ≡ opened config.window config.workers config.initial) }
    {
        Ok(StoredWorld {
            cluster: Cluster::open(alloc, config.window, config.initial)?,
            manager: Manager::new(alloc, config.workers)?,
        })
    }

    /// Takes a step of the cluster, of which a restart is one of the manager too. The error is running out of memory, and changes nothing.
    fn step_cluster(&mut self, alloc: Global, wanted: Step<'_>) -> Result<Outcome, AllocError>
        ensures after { OnOk result (self.new ≡ (step_cluster (step_of wanted.entry) self.old).world) }
        ensures told { IfOk result (λ o. outcome_of o ≡ (step_cluster (step_of wanted.entry) self.old).outcome) }
        ensures err { OnErr result (self.new ≡ self.old) }
    {
        let outcome = self.cluster.step(alloc, wanted)?;
        if let Step::Restart = wanted {
            self.manager.restart(alloc);
        }
        Ok(Outcome::InCluster(outcome))
    }

    /// Handles the oldest published change of a kind, if one waits: what it shows of expected pods is noted, and the keys that it owes are
    /// added. The error is running out of memory, and changes nothing.
    fn handle(&mut self, alloc: Global, kind: Kind) -> Result<Outcome, AllocError>
        ensures after { OnOk result (self.new ≡ (handle_in kind (follower kind self.old.cluster).unhandled self.old).world) }
        ensures told { IfOk result (λ o. outcome_of o ≡ (handle_in kind (follower kind self.old.cluster).unhandled self.old).outcome) }
        ensures err { OnErr result (self.new ≡ self.old) }
    {
        let Some(change) = self.cluster.oldest(kind) else {
            return Ok(Outcome::Work(ToldOutcome::of(alloc, WorkOutcome::NoStep)?));
        };
        let keys = owed(alloc, &self.cluster, change)?;
        let observations = shown(alloc, change)?;
        let owing = WorkOutcome::Handled {
            kind,
            keys: keys.len() as u64,
        };
        let told = ToldOutcome::of(alloc, owing)?;
        self.manager
            .observe(observations.as_slice(), keys.as_slice())?;
        self.cluster.remove_oldest(kind);
        Ok(Outcome::Work(told))
    }

    /// Has a worker act, if the action is open. The error is running out of memory, and changes nothing.
    fn work(&mut self, alloc: Global, worker: u64, action: Action) -> Result<Outcome, AllocError>
        ensures after { OnOk result (self.new ≡ (after_action (act (client_of self.old.cluster) worker (action_of action) self.old.manager) self.old).world) }
        ensures told { IfOk result (λ o. outcome_of o ≡ (after_action (act (client_of self.old.cluster) worker (action_of action) self.old.manager) self.old).outcome) }
        ensures err { OnErr result (self.new ≡ self.old) }
    {
        let told = self.manager.act(alloc, &mut self.cluster, worker, action)?;
        Ok(Outcome::Work(told))
    }

    /// Lets so many milliseconds pass, where the last moment is not passed by it. The error is running out of memory, and changes nothing.
    fn tick(&mut self, alloc: Global, milliseconds: u64) -> Result<Outcome, AllocError>
        ensures after { OnOk result (self.new ≡ (tick_in milliseconds self.old).world) }
        ensures told { IfOk result (λ o. outcome_of o ≡ (tick_in milliseconds self.old).outcome) }
        ensures err { OnErr result (self.new ≡ self.old) }
    {
        let told = self.manager.tick(alloc, milliseconds)?;
        Ok(Outcome::Work(told))
    }

    /// Takes a step, and returns what is told of it. The error is running out of memory, and changes nothing.
    #[tactic(auto, unfolding(crate::specs::StoredStates::step))]
    pub(crate) fn take(
        &mut self,
        alloc: Global,
        wanted: PlaneStep<'_>,
    ) -> Result<Outcome, AllocError>
        ensures after { OnOk result (self.new ≡ (step self.old (plane_step_of wanted.entry)).world) }
        ensures told { IfOk result (λ o. outcome_of o ≡ (step self.old (plane_step_of wanted.entry)).outcome) }
        ensures err { OnErr result (self.new ≡ self.old) }
    {
        match wanted {
            PlaneStep::InCluster(step) => self.step_cluster(alloc, step),
            PlaneStep::Handle(kind) => self.handle(alloc, kind),
            PlaneStep::Works(worker, action) => self.work(alloc, worker, action),
            PlaneStep::Tick(milliseconds) => self.tick(alloc, milliseconds),
        }
    }

    /// Returns each worker's turn, or none.
    pub(crate) fn hands(&self) -> &Slots
        ensures { result.now ≡ self.now.manager.turns }
    {
        self.manager.turns()
    }

    /// Returns the commands that were issued, each beside the turn in which it was.
    pub(crate) fn issued(&self) -> &[Arc<Issued, Global>]
        ensures { map (λ i. issued_of (arc_value i)) result.now ≡ self.now.manager.issued }
    {
        self.manager.issued()
    }

    /// Returns what is published of a kind.
    pub(crate) fn published(&self, kind: Kind) -> &Indexed
        ensures { result.now ≡ published kind self.now.cluster }
    {
        self.cluster.published(kind)
    }

    /// Returns the journal of all that has happened.
    pub(crate) fn journal(&self) -> &[JournalEntry]
        ensures { map entry_of result.now ≡ self.now.cluster.journal }
    {
        self.cluster.journal()
    }
}

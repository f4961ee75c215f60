//! A cluster and the controller manager beside it: their steps, and what holds over all of them.
use crate::outcomes::Outcome;
use crate::stored_worlds::StoredWorld;
use crate::traces::Trace;
use indexer::Indexed;
use line_session::JournalEntry;
use sim_cluster::Stopped;
use sim_steps::{Config, PlaneStep};
use sim_worker_slots::{Issued, Slots};
use spec_api::kinds::Kind;
use std::alloc::{AllocError, Global};
use std::marker::Model;
use std::sync::Arc;

/// A cluster, and the controller manager beside it, with the steps that were taken since it was opened, which only proofs read.
pub struct World {
    stored: StoredWorld,
    trace: Trace,
}

impl Drop for World {
    // Called where one is dropped; a derived drop is proved anew at each such place.
    fn drop(self) {
        let World {
            stored: _stored,
            trace: _trace,
        } = self;
    }
}

impl Model for World {
    ghost use Rattle.world.specs.WorldStates.{WorldState, coded_world};
    ghost use Rattle.world.specs.Standing.{Stands};

    ghost Value = { WorldState };

    ghost coded = { coded_world };

    ghost view = { λ w. record { stored = w.stored; trace = w.trace.taken } };

    ghost invariant = { λ w. Stands (record { stored = w.stored; trace = w.trace.taken }) };
}

impl World {
    ghost use Rattle.std.specs.Prelude.{◌≡◌, ◌<◌, IfOk, IfErr, OnOk, OnErr, length, map, take};
    ghost use Rattle.std.specs.Arc.{arc_value};
    ghost use Rattle.sim_cluster.specs.ClusterStates.{published};
    ghost use Rattle.spec_sim.specs.ControlPlanes as planes;
    ghost use Rattle.line_session.specs.Entries.{entry_of};
    ghost use Rattle.sim_steps.specs.PlaneSteps.{plane_step_of};
    ghost use Rattle.world.specs.Taken.{plane, followed, followed_by_all};
    ghost use Rattle.sim_worker_slots.specs.Seen.{issued_of};
    ghost use Rattle.world.specs.Headline.{Headline};
    ghost use Rattle.world.specs.Outcomes.{outcome_of};
    ghost use Rattle.world.specs.WorldStates.{opened, step, run};

    /// Returns the opening world, in which nothing has happened yet, and which took no step. The error is running out of memory.
    pub fn open(alloc: Global, config: Config) -> Result<World, AllocError>
        ensures opened { IfOk result (λ w. w ≡ opened config.window config.workers config.initial) }
        ensures headline { IfOk result Headline }
    {
        Ok(World {
            stored: StoredWorld::open(alloc, config)?,
            trace: Trace::begun(&config),
        })
    }

    /// Takes a step of what is stored, and notes it. The error is running out of memory, and changes nothing.
    fn take(&mut self, alloc: Global, wanted: PlaneStep<'_>) -> Result<Outcome, AllocError>
        ensures after { OnOk result (self.new ≡ (step self.old (plane_step_of wanted.entry)).world) }
        ensures told { IfOk result (λ o. outcome_of o ≡ (step self.old (plane_step_of wanted.entry)).outcome) }
        ensures err { OnErr result (self.new ≡ self.old) }
    {
        let outcome = self.stored.take(alloc, wanted)?;
        self.trace = self.trace.followed(&wanted);
        Ok(outcome)
    }

    /// Takes a step, and returns what came of it. The error is running out of memory, and changes nothing.
    ///
    /// What comes of it is what comes of it in the control plane that was opened so, after all steps that were taken since,
    /// whichever calls took them; and the world stands for what it is after this step too.
    ///
    /// Over all these steps: each published map is the server's list at the revision published with it, and that falls by a restart
    /// alone. No key is in two workers' hands, and a turn begins with the head of the queue. Each command that was issued is the next one
    /// of its plan for what its worker then had in hand: looks that were published since the last restart, and live reads of what was
    /// there. Each write that names a version replaced exactly that version. Each published change is, until a restart, still to be
    /// handled, or each key that it owed then is still to be processed, or was taken after that. What a delete of the garbage
    /// collector marked or removed named owners, none of which was there and not being deleted. A ReplicaSet that is let alone never has
    /// more active ones of the pods that were made for it than it was ever to have. And where nothing is left to do, no kind was listed twice
    /// since the start and owner references name what they mean, what is declared is there: the plans of the controllers, of what is
    /// there, are empty.
    ///
    /// `after` and `traced` say what becomes of the world and of the steps taken, and `stands` in `headline` what they have to do with
    /// one another: the other clauses are about the control plane after these steps.
    pub fn step(&mut self, alloc: Global, wanted: PlaneStep<'_>) -> Result<Outcome, AllocError>
        ensures after { OnOk result (self.new ≡ (step self.old (plane_step_of wanted.entry)).world) }
        ensures traced { OnOk result (self.new.trace ≡ followed self.old.trace (plane_step_of wanted.entry)) }
        ensures told { IfOk result (λ o. outcome_of o ≡ (step self.old (plane_step_of wanted.entry)).outcome) }
        ensures tells { IfOk result (λ o. outcome_of o ≡ (planes.step (plane self.old.trace) (plane_step_of wanted.entry)).outcome) }
        ensures headline { Headline self.new }
        ensures err { OnErr result (self.new ≡ self.old) }
    {
        // What holds of every world is known from here on.
        let _stored = &self.stored;
        self.take(alloc, wanted)
    }

    /// Takes one step after another.
    fn take_all(&mut self, alloc: Global, steps: &[PlaneStep<'_>]) -> Result<(), Stopped>
        ensures ok { OnOk result (self.new ≡ run self.old (map plane_step_of steps.now)) }
        ensures stopped { IfErr result (λ s. (s.taken < length steps.now) × (self.new ≡ run self.old (map plane_step_of (take s.taken steps.now)))) }
    {
        for (taken, wanted) in steps.iter().enumerate() {
            let Ok(_) = self.take(alloc, *wanted) else {
                return Err(Stopped { taken });
            };
        }
        Ok(())
    }

    /// Takes one step after another. The error says how many were taken before one ran out of memory.
    ///
    /// Whatever was asked, and also where it stopped, holds what `step` says, of all steps that were taken since the world was opened.
    pub fn run(&mut self, alloc: Global, steps: &[PlaneStep<'_>]) -> Result<(), Stopped>
        ensures ok { OnOk result (self.new ≡ run self.old (map plane_step_of steps.now)) }
        ensures stopped { IfErr result (λ s. (s.taken < length steps.now) × (self.new ≡ run self.old (map plane_step_of (take s.taken steps.now)))) }
        ensures traced { OnOk result (self.new.trace ≡ followed_by_all self.old.trace (map plane_step_of steps.now)) }
        ensures stopped_traced { IfErr result (λ s. self.new.trace ≡ followed_by_all self.old.trace (map plane_step_of (take s.taken steps.now))) }
        ensures headline { Headline self.new }
    {
        // What holds of every world is known from here on.
        let _stored = &self.stored;
        self.take_all(alloc, steps)
    }

    /// Returns for each worker the turn that it has in hand, or none. It takes no memory.
    pub fn hands(&self) -> &Slots
        ensures turns { result.now ≡ self.now.stored.manager.turns }
        ensures headline { Headline self.now }
    {
        let _stored = &self.stored;
        self.stored.hands()
    }

    /// Returns all commands that were issued since the world was opened, the oldest first, each beside the turn that its worker then had in
    /// hand, and the answer. It takes no memory.
    pub fn issued(&self) -> &[Arc<Issued, Global>]
        ensures issued { map (λ i. issued_of (arc_value i)) result.now ≡ self.now.stored.manager.issued }
        ensures headline { Headline self.now }
    {
        let _stored = &self.stored;
        self.stored.issued()
    }

    /// Returns what the informer of a kind has published: the objects, and the revision at which they are the server's list; before the first
    /// publish none, and 0. It takes no memory.
    pub fn published(&self, kind: Kind) -> &Indexed
        ensures published { result.now ≡ published kind self.now.stored.cluster }
        ensures headline { Headline self.now }
    {
        let _stored = &self.stored;
        self.stored.published(kind)
    }

    /// Returns the journal of all that has happened since the world was opened: the writes and the compactions, the oldest first. It takes
    /// no memory.
    pub fn journal(&self) -> &[JournalEntry]
        ensures journal { map entry_of result.now ≡ self.now.stored.cluster.journal }
        ensures headline { Headline self.now }
    {
        let _stored = &self.stored;
        self.stored.journal()
    }
}

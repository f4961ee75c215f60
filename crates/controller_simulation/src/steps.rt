//! The steps of a world.
use crate::events::WorldEvent;
use crate::fates::Fate;
use crate::working::{Issued, Taking};
use crate::worlds::ControllerWorld;
use keyed_queues::Named;
use reconciler::Reconciler;
use sim_steps::{Action, PlaneStep, Step};
use spec_api::kinds::Kind;
use std::alloc::{AllocError, Global};

/// One atomic step of one actor of a world.
#[derive(Clone, Copy)]
pub enum WorldStep<'t> {
    /// One for which `kcp simulate` has a line.
    Plane(PlaneStep<'t>),
    /// What a worker asks next is refused with this status code.
    Refuse(u64, u16),
    /// All that is shown counts as a change that leaves it as it is.
    OweAgain,
}

impl<K: Named> ControllerWorld<K> {
    ghost use Rattle.std.specs.Prelude.{◌≡◌, ◌+◌, ◌^◌, ◌-◌, IfOk, OnErr, min};
    ghost use Rattle.keyed_board.specs.Said.{said};
    ghost use Rattle.sim_steps.specs.Steps.{step_of};
    ghost use Rattle.controller_simulation.specs.Steps.{AsBefore, IsStep};
    ghost use Rattle.controller_simulation.specs.Told.{IsFinished, IsHandled, IsIssued, IsOwedAgain, IsPlanned, IsToldOf, IsWork, ToldBy, TookStep, told_of_look, told_of_take};
    ghost use Rattle.controller_simulation.specs.declared.events.WorldEvent.TheVariants.{Time};

    /// Takes a step of the cluster that is no restart.
    fn moved<C: Reconciler<K>>(
        &mut self,
        alloc: Global,
        _controller: &C,
        wanted: Step<'_>,
    ) -> Result<WorldEvent<K>, AllocError>
        ensures ok { IfOk result (IsStep K.order K.says C.owes C.ends self.old self.new) }
        ensures told { IfOk result (ToldBy (step_of wanted.entry) self.old.cluster self.new.cluster) }
        ensures err { OnErr result (AsBefore K.order K.says self.old self.new) }
    {
        Ok(WorldEvent::InCluster(self.step_in_cluster(alloc, wanted)?))
    }

    /// Takes a step of the cluster.
    fn in_cluster<C: Reconciler<K>>(
        &mut self,
        alloc: Global,
        controller: &C,
        wanted: Step<'_>,
    ) -> Result<WorldEvent<K>, AllocError>
        ensures ok { IfOk result (IsStep K.order K.says C.owes C.ends self.old self.new) }
        ensures told { IfOk result (TookStep (step_of wanted.entry) self.old.cluster self.new.cluster) }
        ensures err { OnErr result (AsBefore K.order K.says self.old self.new) }
    {
        match wanted {
            Step::Request(line) => self.moved(alloc, controller, Step::Request(line)),
            Step::Compact(revision) => self.moved(alloc, controller, Step::Compact(revision)),
            Step::Moves(kind, movement) => self.moved(
                alloc,
                controller,
                Step::Moves(kind, movement),
            ),
            Step::Restart => {
                self.restart(alloc)?;
                Ok(WorldEvent::Restarted)
            }
        }
    }

    /// Handles a published change of a kind.
    fn handled<C: Reconciler<K>>(
        &mut self,
        alloc: Global,
        controller: &C,
        kind: Kind,
    ) -> Result<WorldEvent<K>, AllocError>
        ensures ok { IfOk result (IsStep K.order K.says C.owes C.ends self.old self.new) }
        ensures told { IfOk result (IsHandled kind self.old.cluster) }
        ensures err { OnErr result (AsBefore K.order K.says self.old self.new) }
    {
        match self.handle(alloc, controller, kind)? {
            Some(keys) => Ok(WorldEvent::Handled(kind, keys)),
            None => Ok(WorldEvent::NoStep),
        }
    }

    /// Has a worker take a key.
    fn taken<C: Reconciler<K>>(
        &mut self,
        alloc: Global,
        _controller: &C,
        worker: u64,
    ) -> Result<WorldEvent<K>, AllocError>
        ensures ok { IfOk result (IsStep K.order K.says C.owes C.ends self.old self.new) }
        ensures told { IfOk result (λ told. told ≡ told_of_take worker self.old.turns.items self.old.cluster (said K.order K.says self.old.board)) }
        ensures err { OnErr result (AsBefore K.order K.says self.old self.new) }
    {
        match self.take(alloc, worker)? {
            Taking::Took => Ok(WorldEvent::Took(worker, true)),
            Taking::NoneWaits => Ok(WorldEvent::Took(worker, false)),
            Taking::NotOpen => Ok(WorldEvent::NoStep),
        }
    }

    /// Has a worker look at a kind.
    fn looked<C: Reconciler<K>>(
        &mut self,
        _controller: &C,
        worker: u64,
        kind: Kind,
    ) -> Result<WorldEvent<K>, AllocError>
        ensures ok { IfOk result (IsStep K.order K.says C.owes C.ends self.old self.new) }
        ensures told { IfOk result (λ told. told ≡ told_of_look worker kind self.old.turns.items) }
        ensures err { OnErr result (AsBefore K.order K.says self.old self.new) }
    {
        if self.look(worker, kind)? {
            Ok(WorldEvent::Looked(worker, kind))
        } else {
            Ok(WorldEvent::NoStep)
        }
    }

    /// Has a worker ask what comes next.
    fn issued<C: Reconciler<K>>(
        &mut self,
        alloc: Global,
        controller: &C,
        worker: u64,
        fate: Fate,
    ) -> Result<WorldEvent<K>, AllocError>
        ensures ok { IfOk result (IsStep K.order K.says C.owes C.ends self.old self.new) }
        ensures told { IfOk result (IsIssued fate worker self.old self.new) }
        ensures err { OnErr result (AsBefore K.order K.says self.old self.new) }
    {
        match self.issue(alloc, controller, worker, fate)? {
            Issued::Made => Ok(WorldEvent::Asked(worker)),
            Issued::Differs => Ok(WorldEvent::Differs(worker)),
            Issued::NotOpen => Ok(WorldEvent::NoStep),
        }
    }

    /// Has a worker give its key back.
    fn finished<C: Reconciler<K>>(
        &mut self,
        alloc: Global,
        controller: &C,
        worker: u64,
    ) -> Result<WorldEvent<K>, AllocError>
        ensures ok { IfOk result (IsStep K.order K.says C.owes C.ends self.old self.new) }
        ensures told { IfOk result (IsFinished worker) }
        ensures err { OnErr result (AsBefore K.order K.says self.old self.new) }
    {
        match self.finish(alloc, controller, worker)? {
            Some((key, outcome)) => Ok(WorldEvent::Finished(worker, key, outcome)),
            None => Ok(WorldEvent::NoStep),
        }
    }

    /// Lets time pass.
    fn passed<C: Reconciler<K>>(
        &mut self,
        _controller: &C,
        milliseconds: u64,
    ) -> Result<WorldEvent<K>, AllocError>
        ensures ok { IfOk result (IsStep K.order K.says C.owes C.ends self.old self.new) }
        ensures told { IfOk result (λ told. told ≡ Time (min (self.old.time + milliseconds) (2 ^ 64 - 1))) }
        ensures err { OnErr result (AsBefore K.order K.says self.old self.new) }
    {
        Ok(WorldEvent::Time(self.tick(milliseconds)?))
    }

    /// Has a worker act.
    fn worked<C: Reconciler<K>>(
        &mut self,
        alloc: Global,
        controller: &C,
        worker: u64,
        action: Action,
    ) -> Result<WorldEvent<K>, AllocError>
        ensures ok { IfOk result (IsStep K.order K.says C.owes C.ends self.old self.new) }
        ensures told { IfOk result (IsWork action worker self.old self.new (said K.order K.says self.old.board)) }
        ensures err { OnErr result (AsBefore K.order K.says self.old self.new) }
    {
        match action {
            Action::Take => self.taken(alloc, controller, worker),
            Action::Look(kind) => self.looked(controller, worker, kind),
            Action::Issue(delivery) => {
                self.issued(alloc, controller, worker, Fate::Sent(delivery))
            }
            Action::Finish => self.finished(alloc, controller, worker),
            Action::AskSatisfied => Ok(WorldEvent::NoStep),
            Action::ReadLive => Ok(WorldEvent::NoStep),
            Action::Expect => Ok(WorldEvent::NoStep),
        }
    }

    /// Takes a step that is told by a line.
    fn planned<C: Reconciler<K>>(
        &mut self,
        alloc: Global,
        controller: &C,
        wanted: PlaneStep<'_>,
    ) -> Result<WorldEvent<K>, AllocError>
        ensures ok { IfOk result (IsStep K.order K.says C.owes C.ends self.old self.new) }
        ensures told { IfOk result (IsPlanned wanted.entry self.old self.new (said K.order K.says self.old.board)) }
        ensures err { OnErr result (AsBefore K.order K.says self.old self.new) }
    {
        match wanted {
            PlaneStep::InCluster(step) => self.in_cluster(alloc, controller, step),
            PlaneStep::Handle(kind) => self.handled(alloc, controller, kind),
            PlaneStep::Works(worker, action) => self.worked(alloc, controller, worker, action),
            PlaneStep::Tick(milliseconds) => self.passed(controller, milliseconds),
        }
    }

    /// Has all that is shown count as changes.
    fn owed_again<C: Reconciler<K>>(
        &mut self,
        alloc: Global,
        controller: &C,
    ) -> Result<WorldEvent<K>, AllocError>
        ensures ok { IfOk result (IsStep K.order K.says C.owes C.ends self.old self.new) }
        ensures told { IfOk result IsOwedAgain }
        ensures err { OnErr result (AsBefore K.order K.says self.old self.new) }
    {
        Ok(WorldEvent::OwedAgain(self.owe_again(alloc, controller)?))
    }

    /// Takes a step, and returns what is told of it. A step that is not open changes nothing; those of `kcp`'s own controllers never are (`satisfied`,
    /// `read`, `expect`). The error is running out of memory, and changes nothing of the cluster and of the board.
    ///
    /// Whatever the controller does, then the cluster took the step that was wanted of it, or at most one request of a worker, or a change was handled; and
    /// the board took at most one of its own: the keys that are added are such as the controller says that the change owes, and one that is given back ends
    /// as it says that it may, by what was shown. At most the turn of the worker changes that acts. What is told says which step that was.
    pub fn step<C: Reconciler<K>>(
        &mut self,
        alloc: Global,
        controller: &C,
        wanted: WorldStep<'_>,
    ) -> Result<WorldEvent<K>, AllocError>
        ensures ok { IfOk result (IsStep K.order K.says C.owes C.ends self.old self.new) }
        ensures told { IfOk result (IsToldOf wanted.entry self.old self.new (said K.order K.says self.old.board)) }
        ensures err { OnErr result (AsBefore K.order K.says self.old self.new) }
    {
        match wanted {
            WorldStep::Plane(step) => self.planned(alloc, controller, step),
            WorldStep::Refuse(worker, code) => {
                self.issued(alloc, controller, worker, Fate::Refused(code))
            }
            WorldStep::OweAgain => self.owed_again(alloc, controller),
        }
    }
}

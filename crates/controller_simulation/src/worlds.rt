//! A server, what follows it, and a controller of one's own, step by step.
use crate::places::empty;
use crate::turns::ControllerTurn;
use indexer::Indexed;
use keyed_board::KeyedBoard;
use keyed_queues::Named;
use object_keys::PerKind;
use sim_cluster::Cluster;
use sim_followers::ClusterOutcome;
use sim_steps::{InitialSync, Step};
use std::alloc::{AllocError, Global};

/// A server, what follows each kind of it, a board of keys, and each worker's turn. It takes no step of its own: who calls it says what every actor does,
/// and in which order.
#[derive(Drop)]
pub struct ControllerWorld<K: Named> {
    pub cluster: Cluster,
    pub board: KeyedBoard<K>,
    /// For each worker its turn, or none; the first is number 0.
    pub turns: Vec<Option<ControllerTurn<K>>>,
    /// How many milliseconds have passed since the board began.
    pub time: u64,
}

impl<K: Named> ControllerWorld<K> {
    ghost use Rattle.std.specs.Prelude.{◌≡◌, ◌+◌, ◌^◌, ◌-◌, IfOk, OnErr, OnOk, None, length, min, replicate};
    ghost use Rattle.keyed_board.specs.Boards.{begun, ticked};
    ghost use Rattle.keyed_board.specs.Said.{said};
    ghost use Rattle.sim_cluster.specs.ClusterStates.{opened, step};
    ghost use Rattle.sim_followers.specs.Outcomes.{outcome_of};
    ghost use Rattle.sim_steps.specs.Steps.{step_of};
    ghost use Rattle.spec_sim.specs.Clusters.{restart};
    ghost use Rattle.controller_simulation.specs.Worlds.{shown_in};

    /// Returns a world in which nothing has happened: nothing is there, the server's windows have this size, followers begin so, also after a restart, and
    /// no worker is in a turn. The error is running out of memory.
    pub fn open(
        alloc: Global,
        window: usize,
        workers: usize,
        initial: InitialSync,
    ) -> Result<ControllerWorld<K>, AllocError>
        ensures cluster { IfOk result (λ w. w.cluster ≡ opened window initial) }
        ensures board { IfOk result (λ w. said K.order K.says w.board ≡ begun) }
        ensures turns { IfOk result (λ w. w.turns.items ≡ replicate workers None) }
        ensures time { IfOk result (λ w. w.time ≡ 0) }
    {
        Ok(ControllerWorld {
            cluster: Cluster::open(alloc, window, initial)?,
            board: KeyedBoard::new(alloc),
            turns: empty(alloc, workers)?,
            time: 0,
        })
    }

    /// Returns copies of what is published of each kind, which share the objects. The error is running out of memory.
    pub fn shown(&self) -> Result<PerKind<Indexed>, AllocError>
        ensures { IfOk result (λ shown. shown ≡ shown_in self.now.cluster) }
    {
        PerKind::try_made(|kind| self.cluster.published(kind).try_copy())
    }

    /// Takes a step of the cluster that is no restart.
    pub(crate) fn step_in_cluster(
        &mut self,
        alloc: Global,
        wanted: Step<'_>,
    ) -> Result<ClusterOutcome, AllocError>
        ensures cluster { OnOk result (self.new.cluster ≡ (step self.old.cluster (step_of wanted.entry)).cluster) }
        ensures outcome { IfOk result (λ o. outcome_of o ≡ (step self.old.cluster (step_of wanted.entry)).outcome) }
        ensures board { said K.order K.says self.new.board ≡ said K.order K.says self.old.board }
        ensures turns { self.new.turns ≡ self.old.turns }
        ensures err { OnErr result (self.new.cluster ≡ self.old.cluster) }
    {
        self.cluster.step(alloc, wanted)
    }

    /// Has what follows the server, the board and the workers begin anew, as where their process is started again. The server stays. The error is running
    /// out of memory, and changes nothing.
    pub fn restart(&mut self, alloc: Global) -> Result<(), AllocError>
        ensures cluster { OnOk result (self.new.cluster ≡ (step self.old.cluster restart).cluster) }
        ensures board { OnOk result (said K.order K.says self.new.board ≡ begun) }
        ensures turns { OnOk result (self.new.turns.items ≡ replicate (length self.old.turns.items) None) }
        ensures time { OnOk result (self.new.time ≡ 0) }
        ensures err { OnErr result (self.new.cluster ≡ self.old.cluster) }
        ensures err_board { OnErr result (said K.order K.says self.new.board ≡ said K.order K.says self.old.board) }
    {
        let turns = empty(alloc, self.turns.len())?;
        self.cluster.step(alloc, Step::Restart)?;
        self.board = KeyedBoard::new(alloc);
        self.turns = turns;
        self.time = 0;
        Ok(())
    }

    /// Lets milliseconds pass, at most to the last moment that can be told, adds the keys whose moment has come, and returns what moment it is. The error
    /// is running out of memory, and changes nothing.
    pub fn tick(&mut self, milliseconds: u64) -> Result<u64, AllocError>
        ensures cluster { self.new.cluster ≡ self.old.cluster }
        ensures board { IfOk result (λ now. said K.order K.says self.new.board ≡ ticked now (said K.order K.says self.old.board)) }
        ensures turns { self.new.turns ≡ self.old.turns }
        ensures time { IfOk result (λ now. (now ≡ min (self.old.time + milliseconds) (2 ^ 64 - 1)) × (self.new.time ≡ now)) }
        ensures err { OnErr result (said K.order K.says self.new.board ≡ said K.order K.says self.old.board) }
    {
        let now = self.time.saturating_add(milliseconds);
        self.board.tick(now)?;
        self.time = now;
        Ok(now)
    }
}

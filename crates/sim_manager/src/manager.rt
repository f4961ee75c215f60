//! The controller manager.
use crate::outcomes::WorkOutcome;
use crate::told_outcomes::ToldOutcome;
use object_keys::WorkKey;
use sim_worker_slots::{Issued, Slots};
use std::alloc::{AllocError, Global};
use std::marker::Model;
use std::sync::Arc;
use work_board::{Board, Observation};

/// The board, for each worker its turn or none, and all commands that were issued, in order.
pub struct Manager {
    pub(crate) board: Board,
    pub(crate) turns: Slots,
    pub(crate) issued: Vec<Arc<Issued, Global>>,
}

impl Drop for Manager {
    // Called where one is dropped; a derived drop is proved anew at each such place.
    fn drop(self) {
        let Manager {
            board: _board,
            turns: _turns,
            issued: _issued,
        } = self;
    }
}

impl Model for Manager {
    ghost use Rattle.std.specs.Prelude.{map};
    ghost use Rattle.std.specs.Arc.{arc_value};
    ghost use Rattle.spec_sim.specs.Managers as managers;
    ghost use Rattle.sim_manager.specs.Codes.{coded_manager};
    ghost use Rattle.sim_worker_slots.specs.Seen.{issued_of};

    ghost Value = { managers.Manager };

    ghost coded = { coded_manager };

    ghost view = { λ m. record { board = m.board; turns = m.turns; issued = map (λ i. issued_of (arc_value i)) m.issued.items } };
}

impl Manager {
    ghost use Rattle.std.specs.Prelude.{◌≡◌, IfOk, OnOk, OnErr, map};
    ghost use Rattle.std.specs.Arc.{arc_value};
    ghost use Rattle.spec_client_go.specs.Boards.{observed, ticked};
    ghost use Rattle.work_board.specs.Seen.{observation_of};
    ghost use Rattle.spec_sim.specs.Managers.{begun, restarted};
    ghost use Rattle.sim_worker_slots.specs.Seen.{issued_of};
    ghost use Rattle.sim_manager.specs.Told.{told_of_tick};
    ghost use Rattle.sim_manager.specs.Outcomes.{outcome_of};
    ghost use Rattle.object_keys.specs.WorkKeys.{work_key_of};

    /// Returns a manager with so many workers, none of which is in a turn. The error is running out of memory.
    pub fn new(alloc: Global, workers: usize) -> Result<Manager, AllocError>
        ensures { IfOk result (λ m. m ≡ begun workers) }
    {
        Ok(Manager {
            board: Board::new(alloc),
            turns: Slots::new(alloc, workers)?,
            issued: Vec::new(alloc),
        })
    }

    /// Begins anew: all but what was issued is forgotten. It takes no memory.
    pub fn restart(&mut self, alloc: Global)
        ensures { self.new ≡ restarted self.old }
    {
        self.board = Board::new(alloc);
        self.turns.clear();
    }

    /// Returns each worker's turn, or none. It takes no memory.
    pub fn turns(&self) -> &Slots
        ensures { result.now ≡ self.now.turns }
    {
        &self.turns
    }

    /// Returns the commands that were issued, in order. It takes no memory.
    pub fn issued(&self) -> &[Arc<Issued, Global>]
        ensures { map (λ i. issued_of (arc_value i)) result.now ≡ self.now.issued }
    {
        self.issued.as_slice()
    }

    /// Notes what a change shows of the pods that are expected, and adds the keys that it owes. The error is running out of memory, and
    /// then nothing has changed.
    pub fn observe(
        &mut self,
        observations: &[Observation],
        keys: &[WorkKey],
    ) -> Result<(), AllocError>
        ensures ok { OnOk result (self.new ≡ record self.old {
          board = observed (map observation_of observations.now) (map work_key_of keys.now) self.old.board;
        }) }
        ensures err { OnErr result (self.new ≡ self.old) }
    {
        self.board.observe(observations, keys)
    }

    /// Lets so many milliseconds pass, and adds the keys whose moment has come; beyond the last moment, 2^53 - 1, nothing changes.
    /// Returns what is told of it. The error is running out of memory, and then nothing has changed.
    pub fn tick(&mut self, alloc: Global, milliseconds: u64) -> Result<ToldOutcome, AllocError>
        ensures ok { OnOk result (self.new ≡ record self.old { board = ticked milliseconds self.old.board }) }
        ensures told { IfOk result (λ t. outcome_of t.outcome ≡ told_of_tick milliseconds self.old.board) }
        ensures err { OnErr result (self.new ≡ self.old) }
    {
        let milliseconds_then = self.board.time().saturating_add(milliseconds);
        let passed = ToldOutcome::of(
            alloc,
            WorkOutcome::Time {
                milliseconds: milliseconds_then,
            },
        )?;
        let closed = ToldOutcome::of(alloc, WorkOutcome::NoStep)?;
        if self.board.tick(milliseconds)? {
            Ok(passed)
        } else {
            Ok(closed)
        }
    }
}

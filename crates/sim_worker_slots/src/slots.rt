//! Slots of workers.
ghost use Rattle.std.specs.Prelude.{◌≡◌, true, OnOk, OnErr, Some, None, map, option_map, option_and_then, is_some};
ghost use Rattle.spec_sim.specs.Turns.{with_expected, with_sight};
ghost use Rattle.sim_worker_slots.specs.Slots.{next_in};
ghost use Rattle.reconcile_turn.specs.Seen.{sight_of, step_of, key_read, found_under};

use crate::steps_next::is_next;
use meta::Object;
use reconcile_turn::{Sight, Turn};
use sim_steps::Action;
use std::alloc::{AllocError, Global};
use std::marker::Model;

/// For each worker its turn, or none.
#[derive(Drop)]
pub struct Slots {
    turns: Vec<Option<Turn>>,
}

impl Model for Slots {
    ghost use Rattle.sim_worker_slots.specs.Codes.{coded_slots};
    ghost use Rattle.sim_worker_slots.specs.Slots as slots;

    ghost Value = { slots.Slots };

    ghost coded = { coded_slots };

    ghost view = { λ s. s.turns.items };
}

impl Slots {
    ghost use Rattle.std.specs.Prelude.{◌≡◌, ◌<◌, true, IfOk, IfSome, OnOk, OnErr, Some, None, length, map, option_map, option_and_then, is_some, replicate, slice_set};
    ghost use Rattle.spec_sim.specs.Turns.{with_expected, with_sight};
    ghost use Rattle.sim_steps.specs.Actions.{action_of};
    ghost use Rattle.sim_worker_slots.specs.Slots.{is_idle, turn_of, comes_next, next_in, gone_on};
    ghost use Rattle.reconcile_turn.specs.Seen.{sight_of, step_of, key_read, found_under};

    /// Returns the slots of so many workers, none of which is in a turn. The error is running out of memory.
    pub fn new(alloc: Global, workers: usize) -> Result<Slots, AllocError>
        ensures { IfOk result (λ s. s ≡ replicate workers None) }
    {
        let mut turns = Vec::with_capacity(alloc, workers)?;
        for _ in 0..workers {
            turns.push(None)?;
        }
        Ok(Slots { turns })
    }

    /// Ends all turns. It takes no memory.
    pub fn clear(&mut self)
        ensures { self.new ≡ map (λ t. None) self.old }
    {
        end_all(self.turns.as_mut_slice());
    }

    /// Returns whether there is such a worker, and it is in no turn. It takes no memory.
    pub fn is_idle(&self, worker: u64) -> bool
        ensures { result ≡ is_idle worker self.now }
    {
        match self.turns.get(worker as usize) {
            Some(None) => true,
            _ => false,
        }
    }

    /// Returns the turn that a worker is in, if there is such a worker and it is in one. It takes no memory.
    pub fn get(&self, worker: u64) -> Option<&Turn>
        ensures { option_map (λ t. t.now) result ≡ turn_of worker self.now }
    {
        match self.turns.get(worker as usize) {
            Some(Some(turn)) => Some(turn),
            _ => None,
        }
    }

    /// Returns the turn that a worker is in, if it is in one in which this action comes next. It takes no memory.
    pub fn turn_before(&self, worker: u64, action: Action) -> Option<&Turn>
        ensures comes { is_some result ≡ comes_next (action_of action) (turn_of worker self.now) }
        ensures turn { IfSome result (λ t. turn_of worker self.now ≡ Some t.now) }
    {
        match self.get(worker) {
            Some(turn) => {
                if is_next(turn, action) {
                    Some(turn)
                } else {
                    None
                }
            }
            None => None,
        }
    }

    /// Puts a turn, or none, in a worker's slot. It takes no memory.
    pub fn set(&mut self, worker: u64, turn: Option<Turn>)
        requires { worker < length self.old }
        ensures { self.new ≡ slice_set self.old worker turn }
    {
        self.turns[worker as usize] = turn;
    }

    /// Adds to a worker's turn what it saw, which is what comes next in it. The error is running out of memory, and then nothing has
    /// changed.
    pub fn see(&mut self, worker: u64, sight: Sight) -> Result<(), AllocError>
        requires { next_in (turn_of worker self.old) ≡ Some (step_of sight) }
        ensures ok { OnOk result (self.new ≡ gone_on (with_sight (sight_of sight)) worker self.old) }
        ensures err { OnErr result (self.new ≡ self.old) }
    {
        see_in(&mut self.turns[worker as usize], sight)
    }

    /// Adds to a worker's turn what was found under the key that it reads live next. The error is running out of memory, and then nothing
    /// has changed.
    pub fn add_read(&mut self, worker: u64, found: Option<Object>) -> Result<(), AllocError>
        requires { is_some (option_and_then key_read (next_in (turn_of worker self.old))) ≡ true }
        ensures ok { OnOk result (self.new ≡ gone_on (found_under (option_and_then key_read (next_in (turn_of worker self.old))) (option_map (λ o. o.value) found)) worker self.old) }
        ensures err { OnErr result (self.new ≡ self.old) }
    {
        add_read_in(&mut self.turns[worker as usize], found)
    }

    /// Notes in a worker's turn that what its plan makes of pods is expected. It takes no memory.
    pub fn expect(&mut self, worker: u64)
        requires { is_some (turn_of worker self.old) ≡ true }
        ensures { self.new ≡ gone_on with_expected worker self.old }
    {
        expect_in(&mut self.turns[worker as usize]);
    }
}

/// Ends all turns. It takes no memory.
fn end_all(turns: &mut [Option<Turn>])
    ensures { turns.new ≡ map (λ t. None) turns.old }
{
    for turn in turns.iter_mut() {
        *turn = None;
    }
}

/// Adds to a turn what was seen, which is what comes next in it. The error is running out of memory, and then nothing has changed.
fn see_in(slot: &mut Option<Turn>, sight: Sight) -> Result<(), AllocError>
    requires { next_in slot.old ≡ Some (step_of sight) }
    ensures ok { OnOk result (slot.new ≡ option_map (with_sight (sight_of sight)) slot.old) }
    ensures err { OnErr result (slot.new ≡ slot.old) }
{
    match slot {
        Some(turn) => turn.see(sight),
        None => Ok(()),
    }
}

/// Adds to a turn what was found under the key that is read live next in it. The error is running out of memory, and then nothing has
/// changed.
fn add_read_in(slot: &mut Option<Turn>, found: Option<Object>) -> Result<(), AllocError>
    requires { is_some (option_and_then key_read (next_in slot.old)) ≡ true }
    ensures ok { OnOk result (slot.new
        ≡ option_map (found_under (option_and_then key_read (next_in slot.old)) (option_map (λ o. o.value) found)) slot.old) }
    ensures err { OnErr result (slot.new ≡ slot.old) }
{
    match slot {
        Some(turn) => turn.add_read(found),
        None => Ok(()),
    }
}

/// Notes in a turn that what its plan makes of pods is expected. It takes no memory.
fn expect_in(slot: &mut Option<Turn>)
    ensures { slot.new ≡ option_map with_expected slot.old }
{
    match slot {
        Some(turn) => turn.expect(),
        None => (),
    }
}

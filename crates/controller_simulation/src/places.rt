//! The places of workers, each with its turn.
ghost use Rattle.std.specs.Prelude.{◌≡◌, IfOk, None, Some, option_map, replicate, slice_set};
ghost use Rattle.controller_simulation.specs.Turns.{is_idle, turn_of};

use crate::turns::ControllerTurn;
use keyed_queues::Named;
use std::alloc::{AllocError, Global};

/// Returns the places of so many workers, none of which is in a turn. The error is running out of memory.
pub fn empty<K: Named>(
    alloc: Global,
    workers: usize,
) -> Result<Vec<Option<ControllerTurn<K>>>, AllocError>
    ensures { IfOk result (λ turns. turns.items ≡ replicate workers None) }
{
    let mut turns = Vec::with_capacity(alloc, workers)?;
    for _ in 0..workers {
        turns.push(None)?;
    }
    Ok(turns)
}

/// Returns whether there is such a worker, and it is in no turn. It takes no memory.
pub fn is_idle<K: Named>(places: &[Option<ControllerTurn<K>>], worker: u64) -> bool
    ensures { result ≡ is_idle worker places.now }
{
    match places.get(worker as usize) {
        Some(None) => true,
        _ => false,
    }
}

/// Returns the turn that a worker is in, if there is such a worker and it is in one. It takes no memory.
pub fn turn_of<K: Named>(
    places: &[Option<ControllerTurn<K>>],
    worker: u64,
) -> Option<&ControllerTurn<K>>
    ensures { option_map (λ t. t.now) result ≡ turn_of worker places.now }
{
    match places.get(worker as usize) {
        Some(Some(turn)) => Some(turn),
        _ => None,
    }
}

/// Takes the turn that a worker is in out of its place, if there is such a worker and it is in one. It takes no memory.
#[tactic(auto, using(crate::proofs::Placed::past_turn, crate::proofs::Placed::past_left, crate::proofs::Placed::here_turn))]
pub fn taken_out<K: Named>(
    places: &mut Vec<Option<ControllerTurn<K>>>,
    worker: u64,
) -> Option<ControllerTurn<K>>
    ensures turn { result ≡ turn_of worker places.old.items }
    ensures left { places.new.items ≡ slice_set places.old.items worker None }
{
    if worker as usize >= places.len() {
        return None;
    }
    places[worker as usize].take()
}

/// Puts a turn into the place of a worker; where there is no such worker, it is let go. It takes no memory.
#[tactic(auto, using(crate::proofs::Placed::past_left))]
pub fn put<K: Named>(
    places: &mut Vec<Option<ControllerTurn<K>>>,
    worker: u64,
    turn: ControllerTurn<K>,
)
    ensures { places.new.items ≡ slice_set places.old.items worker (Some turn) }
{
    if worker as usize >= places.len() {
        return;
    }
    places[worker as usize] = Some(turn);
}

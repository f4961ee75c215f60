//! The steps of a board that a pass holds.
ghost use Rattle.std.specs.Prelude.{◌≡◌, IfOk, OnOk, OnErr, map, string_bytes, []};
ghost use Rattle.spec_client_go.specs.Boards.{may_tick};
ghost use Rattle.work_board.specs.Seen.{owner_of, observation_of};
ghost use Rattle.object_keys.specs.Keys.{key_of};
ghost use Rattle.object_keys.specs.WorkKeys.{work_key_of};
ghost use Rattle.control_desk.specs.Steps as steps;
ghost use Rattle.control_desk.specs.Steps.{next_state};
ghost use Rattle.control_desk.specs.Taken.{IsNext, after_take};

use crate::states::WorkState;
use crate::taken_key::TakenKey;
use baton::Held;
use object_keys::{Key, PerKind, WorkKey};
use spec_api::kinds::Kind;
use std::alloc::AllocError;
use work_board::{Observation, Owner};

/// Returns a copy of what is handled of each kind.
fn copied(handled: &PerKind<u64>) -> PerKind<u64>
    ensures { result ≡ handled.now }
{
    PerKind {
        config_maps: handled.config_maps,
        pods: handled.pods,
        replica_sets: handled.replica_sets,
        deployments: handled.deployments,
    }
}

/// Hands the key that waits longest to a worker, if one waits, and what is handled of each kind.
pub(crate) fn take_key(held: &mut Held<WorkState>) -> Result<Option<TakenKey>, AllocError>
    ensures ok { OnOk result (held.new ≡ after_take held.old) }
    ensures key { IfOk result (λ k. IsNext k held.old) }
    ensures err { OnErr result (held.new ≡ held.old) }
{
    let state = held.get_mut();
    match state.board.take_key()? {
        Some(key) => Ok(Some(TakenKey {
            key,
            handled: copied(&state.handled),
        })),
        None => Ok(None),
    }
}

/// Takes a key back from its worker, and forgets its failures.
pub(crate) fn done(held: &mut Held<WorkState>, key: &WorkKey)
    ensures { held.new ≡ next_state held.old (steps.finish (work_key_of key.now)) }
{
    held.get_mut().board.done(key);
}

/// Takes a key that failed back from its worker.
pub(crate) fn requeue(
    held: &mut Held<WorkState>,
    key: &WorkKey,
    undone: &[Observation],
    least: u32,
) -> Result<(), AllocError>
    ensures ok { OnOk result (held.new ≡ next_state held.old (steps.requeue (work_key_of key.now) (map observation_of undone.now) least)) }
    ensures err { OnErr result (held.new ≡ held.old) }
{
    held.get_mut().board.requeue_after(key, undone, least)
}

/// Notes that what is published of a kind at a revision is handled, unless it was up to a higher one.
fn raise(handled: &mut PerKind<u64>, kind: Kind, revision: u64)
    ensures { handled.new ≡ steps.raised (steps.observe kind revision [] []) handled.old }
{
    let before = *handled.get(kind);
    handled.put(kind, before.max(revision));
}

/// Notes what is shown of the pods that are expected, adds the keys that are owed, and notes up to which revision of a kind this is handled.
pub(crate) fn observe(
    held: &mut Held<WorkState>,
    kind: Kind,
    revision: u64,
    observations: &[Observation],
    keys: &[WorkKey],
) -> Result<(), AllocError>
    ensures ok { OnOk result (held.new
        ≡ next_state held.old (steps.observe kind revision (map observation_of observations.now) (map work_key_of keys.now))) }
    ensures err { OnErr result (held.new ≡ held.old) }
{
    let state = held.get_mut();
    state.board.observe(observations, keys)?;
    raise(&mut state.handled, kind, revision);
    Ok(())
}

/// Adds keys.
pub(crate) fn add(held: &mut Held<WorkState>, keys: &[WorkKey]) -> Result<(), AllocError>
    ensures ok { OnOk result (held.new ≡ next_state held.old (steps.add (map work_key_of keys.now))) }
    ensures err { OnErr result (held.new ≡ held.old) }
{
    held.get_mut().board.observe(&[], keys)
}

/// Sets that a ReplicaSet expects so many pods to be created.
pub(crate) fn expect_creations(
    held: &mut Held<WorkState>,
    owner: &Owner,
    creations: u32,
) -> Result<(), AllocError>
    ensures ok { OnOk result (held.new ≡ next_state held.old (steps.expect_creations (owner_of owner.now) creations)) }
    ensures err { OnErr result (held.new ≡ held.old) }
{
    held.get_mut().board.expect_creations(owner, creations)
}

/// Sets that a ReplicaSet expects the pods of these uids to be deleted.
pub(crate) fn expect_deletions(
    held: &mut Held<WorkState>,
    owner: &Owner,
    pods: Vec<String>,
) -> Result<(), AllocError>
    ensures ok { OnOk result (held.new ≡ next_state held.old (steps.expect_deletions (owner_of owner.now) (map string_bytes pods.items))) }
    ensures err { OnErr result (held.new ≡ held.old) }
{
    held.get_mut().board.expect_deletions(owner, pods)
}

/// Removes what every ReplicaSet of this key expects.
pub(crate) fn forget(held: &mut Held<WorkState>, key: &Key)
    ensures { held.new ≡ next_state held.old (steps.forget (key_of key.now)) }
{
    held.get_mut().board.forget(key);
}

/// Lets so many milliseconds pass, unless that would be beyond the last moment.
pub(crate) fn tick(held: &mut Held<WorkState>, milliseconds: u64) -> Result<bool, AllocError>
    ensures ok { OnOk result (held.new ≡ next_state held.old (steps.tick milliseconds)) }
    ensures went { IfOk result (λ b. b ≡ may_tick milliseconds held.old.board) }
    ensures err { OnErr result (held.new ≡ held.old) }
{
    held.get_mut().board.tick(milliseconds)
}

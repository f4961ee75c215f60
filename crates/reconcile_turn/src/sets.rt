//! The ReplicaSet of a turn.
ghost use Rattle.std.specs.Prelude.{◌≡◌, [], IfOk, is_some, map, option_map};
ghost use Rattle.work_board.specs.Seen.{owner_of};
ghost use Rattle.spec_api.specs.History.{found};
ghost use Rattle.spec_api.specs.declared.kinds.Kind.TheVariants as kind;
ghost use Rattle.object_keys.specs.Keys.{key_of};
ghost use Rattle.object_fields.specs.Lent.{data_of};
ghost use Rattle.spec_sim.specs.Turns.{owner, shown};
ghost use Rattle.object_keys.specs.WorkKeys.{work_key_of};
ghost use Rattle.reconcile_turn.specs.Seen.{sight_of};
ghost use Rattle.reconcile_turn.specs.Stages.{turn_of};

use crate::sights::{Sight, look_at};
use meta::{Kind, Object};
use object_keys::{Key, WorkKey};
use spec_client_go::controller::Controller;
use std::alloc::{AllocError, Global};
use work_board::Owner;

/// Returns the ReplicaSet under a key, where it was there when ReplicaSets were looked at. It takes no memory.
fn set_looked_at<'a>(key: &Key, sights: &'a [Sight]) -> Option<&'a Object>
    ensures { data_of result ≡ found (key_of key.now) (shown kind.ReplicaSet (map sight_of sights.now)) }
{
    match look_at(sights, Kind::ReplicaSet) {
        Some(published) => published.get(key),
        None => None,
    }
}

/// Returns whether the turn is a ReplicaSet's that was there when it was looked at. It takes no memory.
pub fn has_owner(key: &WorkKey, sights: &[Sight]) -> bool
    ensures { result ≡ is_some (owner (turn_of (work_key_of key.now) (map sight_of sights.now) [])) }
{
    match key.controller {
        Controller::ReplicaSet => set_looked_at(&key.key, sights).is_some(),
        Controller::Deployment => false,
        Controller::Collector => false,
    }
}

/// Returns the ReplicaSet of the turn, if it was there when it was looked at. The error is running out of memory.
pub fn owner_of(alloc: Global, key: &WorkKey, sights: &[Sight]) -> Result<Option<Owner>, AllocError>
    ensures { IfOk result (λ o. option_map owner_of o ≡ owner (turn_of (work_key_of key.now) (map sight_of sights.now) [])) }
{
    let Controller::ReplicaSet = key.controller else {
        return Ok(None);
    };
    let Some(set) = set_looked_at(&key.key, sights) else {
        return Ok(None);
    };
    Ok(Some(Owner {
        key: key.key.try_copy()?,
        uid: String::from_str(alloc, set.uid().unwrap_or(""))?,
    }))
}

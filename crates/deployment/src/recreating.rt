//! Old pods first, then new ones.
ghost use Rattle.std.specs.Prelude.{◌≡◌, IfOk, map, not};
ghost use Rattle.std.specs.List.{list_any};
ghost use Rattle.serde_json.specs.Data.{Data};
ghost use Rattle.spec_api.specs.Keys.{Key};
ghost use Rattle.spec_reconcile.specs.Deployments.{clean_up, first_of, has_running_pods, is_over, recreate, renew_whole, scale_each, summary};
ghost use Rattle.deployment.specs.Steps.{wait_or_start};
ghost use Rattle.deployment.specs.Sets.{rollout_seen};
ghost use Rattle.reconcile_types.specs.Commands.{command_of};
ghost use Rattle.reconcile_types.specs.Entries.{entry_of};
ghost use Rattle.reconcile_types.specs.Hands.{members_of};

use crate::cleaning::clean_up;
use crate::making::make;
use crate::managed::managed;
use crate::rollout::{Rollout, due};
use crate::scaling::{renew, scale_each};
use meta::Object;
use object_fields::{in_status, text_in};
use reconcile_types::{Command, Entry, Seen, count_in_spec};
use spec_reconcile::Summary;
use std::alloc::{AllocError, Global};

/// Returns whether a pod has finished.
fn is_over(pod: &Object) -> bool
    ensures { result ≡ is_over pod.now.value }
{
    let phase = text_in(in_status(pod, "phase"));
    phase == "Succeeded" || phase == "Failed"
}

/// Returns whether one of the pods is not over.
fn any_runs(pods: &[Entry<'_>]) -> bool
    ensures { result ≡ list_any (λ (p : Key × Data). not (is_over p.1)) (map entry_of pods.now) }
{
    for pod in pods {
        if !is_over(pod.object) {
            return true;
        }
    }
    false
}

/// Returns whether one of a set's pods is not over.
fn has_running_pods<S: Seen>(
    alloc: Global,
    look: &Option<S>,
    namespace: &str,
    set: &Entry<'_>,
) -> Result<bool, AllocError>
    ensures { IfOk result (λ b. b ≡ has_running_pods namespace.now (members_of S.snapshot look.now) (entry_of set.now)) }
{
    let pods = managed(alloc, look, namespace, set.object)?;
    Ok(any_runs(pods.as_slice()))
}

/// Returns whether a pod of one of the sets is not over.
fn any_has_running_pods<S: Seen>(
    alloc: Global,
    look: &Option<S>,
    namespace: &str,
    sets: &[Entry<'_>],
) -> Result<bool, AllocError>
    ensures { IfOk result (λ b. b
        ≡ list_any (has_running_pods namespace.now (members_of S.snapshot look.now)) (map entry_of sets.now)) }
{
    for set in sets {
        if has_running_pods(alloc, look, namespace, set)? {
            return Ok(true);
        }
    }
    Ok(false)
}

/// Returns a 0 for each of the sets.
fn zeros(alloc: Global, sets: &[Entry<'_>]) -> Result<Vec<u64>, AllocError>
    ensures { IfOk result (λ v. v.items ≡ map (λ (s : Key × Data). 0) (map entry_of sets.now)) }
{
    let mut zeros = Vec::with_capacity(alloc, sets.len())?;
    for _set in sets {
        zeros.push(0)?;
    }
    Ok(zeros)
}

/// Returns the command by which the new set gets all pods at once.
fn renew_whole(alloc: Global, rollout: &Rollout<'_>) -> Result<Vec<Command>, AllocError>
    ensures { IfOk result (λ v. map command_of v.items
        ≡ renew_whole (rollout_seen rollout.now) (rollout_seen rollout.now).new) }
{
    let replicas = count_in_spec(rollout.deployment, "replicas");
    match &rollout.new {
        Some(new) => renew(alloc, new, replicas, due(rollout)),
        None => make(alloc, rollout, replicas),
    }
}

/// Returns the commands once no old pod runs: the new set gets all pods, else what nobody needs is deleted.
fn start_new(
    alloc: Global,
    rollout: &Rollout<'_>,
    counts: &Summary,
) -> Result<Vec<Command>, AllocError>
    requires { counts.now ≡ summary (rollout_seen rollout.now) }
    ensures { IfOk result (λ v. map command_of v.items ≡ first_of
        (renew_whole (rollout_seen rollout.now) (rollout_seen rollout.now).new) (clean_up (rollout_seen rollout.now))) }
{
    let commands = renew_whole(alloc, rollout)?;
    if commands.as_slice().len() != 0 {
        return Ok(commands);
    }
    clean_up(alloc, rollout, counts)
}

/// Returns the commands where no old set is to have pods: none while one of their pods runs.
fn wait_or_start<S: Seen>(
    alloc: Global,
    rollout: &Rollout<'_>,
    pods: &Option<S>,
    counts: &Summary,
) -> Result<Vec<Command>, AllocError>
    requires { counts.now ≡ summary (rollout_seen rollout.now) }
    ensures { IfOk result (λ v. map command_of v.items
        ≡ wait_or_start (rollout_seen rollout.now) (members_of S.snapshot pods.now)) }
{
    let namespace = rollout.key.namespace.as_str();
    if any_has_running_pods(alloc, pods, namespace, rollout.old.as_slice())? {
        return Ok(Vec::new(alloc));
    }
    start_new(alloc, rollout, counts)
}

/// Returns the commands by which the old sets are to have no pods.
fn stop_old(alloc: Global, old: &[Entry<'_>]) -> Result<Vec<Command>, AllocError>
    ensures { IfOk result (λ v. map command_of v.items
        ≡ scale_each (map entry_of old.now) (map (λ (s : Key × Data). 0) (map entry_of old.now))) }
{
    let zeros = zeros(alloc, old)?;
    scale_each(alloc, old, zeros.as_slice())
}

/// Returns the commands of a step: the old sets go to 0; once none of their pods runs, the new set gets all pods, or what
/// nobody needs is deleted. The error is running out of memory.
pub(crate) fn recreate<S: Seen>(
    alloc: Global,
    rollout: &Rollout<'_>,
    pods: &Option<S>,
    counts: &Summary,
) -> Result<Vec<Command>, AllocError>
    requires { counts.now ≡ summary (rollout_seen rollout.now) }
    ensures { IfOk result (λ v. map command_of v.items
        ≡ recreate (rollout_seen rollout.now) (members_of S.snapshot pods.now)) }
{
    let commands = stop_old(alloc, rollout.old.as_slice())?;
    if commands.as_slice().len() != 0 {
        return Ok(commands);
    }
    wait_or_start(alloc, rollout, pods, counts)
}

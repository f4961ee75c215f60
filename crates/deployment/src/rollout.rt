//! A Deployment with its sets.
ghost use Rattle.std.specs.Prelude.{◌≡◌, ◌<◌, ◌^◌, IfOk, map, string_bytes};
ghost use Rattle.serde_json.specs.Written.{compact_text};
ghost use Rattle.object_keys.specs.Keys.{key_of};
ghost use Rattle.spec_reconcile.specs.Deployments.{due, has_its_template, rollout_of, sets, tally};
ghost use Rattle.spec_reconcile.specs.NewPods.{template};
ghost use Rattle.spec_reconcile.specs.Revisions.{greatest, revision};
ghost use Rattle.spec_reconcile.specs.Templates.{bare};
ghost use Rattle.deployment.specs.Sets.{rollout_seen};
ghost use Rattle.reconcile_types.specs.Entries.{entry_of};

use crate::revisions::{GREATEST_REVISION, revision};
use crate::templates::bare_text;
use meta::Object;
use object_keys::Key;
use reconcile_types::{Entry, count_in_spec, count_in_status};
use spec_reconcile::Tally;
use std::alloc::{AllocError, Global};

/// A Deployment with its sets: the one of its template, and the others by age.
#[derive(Drop)]
pub(crate) struct Rollout<'a> {
    pub key: &'a Key,
    pub deployment: &'a Object,
    pub new: Option<Entry<'a>>,
    pub old: Vec<Entry<'a>>,
}

/// Returns whether a set has the template of a Deployment, which is compared by this text.
fn has_its_template(
    alloc: Global,
    deployment: &Object,
    text: &str,
    set: &Entry<'_>,
) -> Result<bool, AllocError>
    requires { text.now ≡ compact_text (bare (template deployment.now.value)) }
    ensures { IfOk result (λ b. b ≡ has_its_template deployment.now.value (entry_of set.now)) }
{
    let other = bare_text(alloc, set.object)?;
    Ok(text == other.as_str())
}

/// Returns a Deployment with these sets. The error is running out of memory.
pub(crate) fn rollout_of<'a>(
    alloc: Global,
    key: &'a Key,
    deployment: &'a Object,
    sets: &[Entry<'a>],
) -> Result<Rollout<'a>, AllocError>
    ensures { IfOk result (λ r. rollout_seen r
        ≡ rollout_of (key_of key.now) deployment.now.value (map entry_of sets.now)) }
{
    let text = bare_text(alloc, deployment)?;
    let mut new = None;
    let mut old = Vec::new(alloc);
    for set in sets {
        if new.is_some() || !has_its_template(alloc, deployment, &text, set)? {
            old.push(*set)?;
        } else {
            new = Some(*set);
        }
    }
    Ok(Rollout {
        key,
        deployment,
        new,
        old,
    })
}

/// Returns all sets of a Deployment, the new one first. The error is running out of memory.
pub(crate) fn all_sets<'a>(
    alloc: Global,
    rollout: &Rollout<'a>,
) -> Result<Vec<Entry<'a>>, AllocError>
    ensures { IfOk result (λ v. map entry_of v.items ≡ sets (rollout_seen rollout.now)) }
{
    let mut sets = Vec::new(alloc);
    if let Some(new) = rollout.new {
        sets.push(new)?;
    }
    for set in rollout.old.as_slice() {
        sets.push(*set)?;
    }
    Ok(sets)
}

/// Returns the numbers of a set.
pub(crate) fn tally(set: &Entry<'_>) -> Tally
    ensures { result ≡ tally (entry_of set.now) }
{
    Tally {
        replicas: count_in_spec(set.object, "replicas"),
        available: count_in_status(set.object, "availableReplicas"),
    }
}

/// Returns the numbers of each set. The error is running out of memory.
pub(crate) fn tallies(alloc: Global, sets: &[Entry<'_>]) -> Result<Vec<Tally>, AllocError>
    ensures { IfOk result (λ v. v.items ≡ map tally (map entry_of sets.now)) }
{
    let mut tallies = Vec::with_capacity(alloc, sets.len())?;
    for set in sets {
        tallies.push(tally(set))?;
    }
    Ok(tallies)
}

/// Returns the greatest revision of sets; 0 where none says one.
fn greatest_revision(sets: &[Entry<'_>]) -> u64
    ensures value { result ≡ greatest (map (λ s. revision s.1) (map entry_of sets.now)) }
    ensures small { result < 2 ^ 60 }
{
    let mut greatest: u64 = 0;
    for set in sets {
        greatest = greatest.max(revision(set.object));
    }
    greatest
}

/// Returns the revision that is due to the new set.
pub(crate) fn due(rollout: &Rollout<'_>) -> u64
    ensures { result ≡ due (rollout_seen rollout.now) }
{
    (greatest_revision(rollout.old.as_slice()) + 1).min(GREATEST_REVISION)
}

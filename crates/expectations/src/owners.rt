//! The ReplicaSets that have had one key, by uid.
ghost use Rattle.std.specs.Prelude.{◌≡◌, ◌-◌, OnOk, OnErr, string_bytes};
ghost use Rattle.std.specs.FinMap as map;
ghost use Rattle.std.specs.FinSet as set;
ghost use Rattle.spec_client_go.specs.Expectations.{is_met};
ghost use Rattle.expectations.specs.Aged.{any_ages_out};
ghost use Rattle.expectations.specs.Seen.{owners_of, expectation_of, changed_at};

use crate::expectation::Expectation;
use std::alloc::AllocError;
use std::collections::BTreeMap;

/// Sets what a ReplicaSet waits for.
pub fn expect(
    owners: &mut BTreeMap<String, Expectation>,
    uid: String,
    expectation: Expectation,
) -> Result<(), AllocError>
    ensures ok { OnOk result (owners_of owners.new ≡ map.insert (owners_of owners.old) (string_bytes uid) (expectation_of expectation)) }
    ensures err { OnErr result (owners_of owners.new ≡ owners_of owners.old) }
{
    owners.insert(uid, expectation)?;
    Ok(())
}

/// Counts one creation less for a ReplicaSet, if one is left.
pub fn see_created(owners: &mut BTreeMap<String, Expectation>, uid: &str)
    ensures { owners_of owners.new ≡ changed_at (λ e. record e { creations = e.creations - 1 }) uid.now (owners_of owners.old) }
{
    if let Some(expectation) = owners.get_mut(uid) {
        expectation.see_created();
    }
}

/// Removes a pod from the deletions of a ReplicaSet, if it is among them.
pub fn see_deleted(owners: &mut BTreeMap<String, Expectation>, uid: &str, pod: &str)
    ensures { owners_of owners.new ≡ changed_at (λ e. record e { deletions = set.remove e.deletions pod.now }) uid.now (owners_of owners.old) }
{
    if let Some(expectation) = owners.get_mut(uid) {
        expectation.see_deleted(pod);
    }
}

/// Returns whether a ReplicaSet waits for nothing.
pub fn is_satisfied(owners: &BTreeMap<String, Expectation>, uid: &str, now: u64) -> bool
    ensures { result ≡ is_met now (map.get (owners_of owners.now) uid.now) }
{
    match owners.get(uid) {
        Some(expectation) => expectation.is_met(now),
        None => true,
    }
}

/// Returns whether one of the ReplicaSets waited for something at the moment `before`, and by its age no longer does `now`.
pub fn any_ages_out(owners: &BTreeMap<String, Expectation>, before: u64, now: u64) -> bool
    ensures { result ≡ any_ages_out before now (owners_of owners.now) }
{
    owners
        .values()
        .any(|expectation| expectation.ages_out(before, now))
}

//! The numbers of a rolling update.
ghost use Rattle.std.specs.Prelude.{◌≡◌, ◌≤◌, ◌∷◌, ◌-◌, IfOk};
ghost use Rattle.spec_reconcile.specs.Rollouts.{asked, available, cuts, fewest, growth, less, missing, most, resized, room, shrunk, total, without_missing, without_spare};

use spec_reconcile::{Pace, Tally};
use std::alloc::{AllocError, Global};

/// Returns how many pods sets are to have.
pub(crate) fn total_asked(sets: &[Tally]) -> u128
    ensures sum { result ≡ total (asked sets.now) }
    ensures small { result ≤ 340282366920938463426481119284349108225 }
{
    let mut sum: u128 = 0;
    for set in sets {
        sum += set.replicas as u128;
    }
    sum
}

/// Returns how many pods of sets are available.
pub(crate) fn total_available(sets: &[Tally]) -> u128
    ensures sum { result ≡ available sets.now }
    ensures small { result ≤ 340282366920938463426481119284349108225 }
{
    let mut sum: u128 = 0;
    for set in sets {
        sum += set.available as u128;
    }
    sum
}

/// Returns by how much a set of `replicas` grows where all sets are to have `all`.
pub(crate) fn growth(pace: Pace, all: u128, replicas: u64) -> u64
    ensures sum { result ≡ growth pace all replicas }
    ensures small { result ≤ pace.wanted }
{
    let above = all.saturating_sub(pace.surge);
    let most = (pace.wanted as u128).saturating_sub(above);
    most.min(pace.wanted.saturating_sub(replicas) as u128) as u64
}

/// Returns how many pods a new set of `replicas` is to have where all sets are to have `all`.
pub(crate) fn resized(pace: Pace, all: u128, replicas: u64) -> u64
    ensures { result ≡ resized pace all replicas }
{
    if pace.wanted < replicas {
        pace.wanted
    } else {
        replicas + growth(pace, all, replicas)
    }
}

/// Returns what each old set is to have once pods are gone that are not available, as many as there is room for.
fn without_missing(alloc: Global, room: u128, old: &[Tally]) -> Result<Vec<u64>, AllocError>
    ensures { IfOk result (λ v. v.items ≡ without_missing room old.now) }
{
    let mut left = Vec::with_capacity(alloc, old.len())?;
    let mut rest = room;
    for set in old {
        let missing = set.replicas.saturating_sub(set.available);
        let lost = rest.min(missing as u128);
        left.push(set.replicas - lost as u64)?;
        rest -= lost;
    }
    Ok(left)
}

/// Returns what is left of each number once so many more pods are gone.
fn without_spare(alloc: Global, spare: u128, asked: &[u64]) -> Result<Vec<u64>, AllocError>
    ensures { IfOk result (λ v. v.items ≡ without_spare spare asked.now) }
{
    let mut left = Vec::with_capacity(alloc, asked.len())?;
    let mut rest = spare;
    for replicas in asked {
        let lost = rest.min(*replicas as u128);
        left.push(*replicas - lost as u64)?;
        rest -= lost;
    }
    Ok(left)
}

/// Returns what each set is to have.
fn asked(alloc: Global, sets: &[Tally]) -> Result<Vec<u64>, AllocError>
    ensures { IfOk result (λ v. v.items ≡ asked sets.now) }
{
    let mut numbers = Vec::with_capacity(alloc, sets.len())?;
    for set in sets {
        numbers.push(set.replicas)?;
    }
    Ok(numbers)
}

/// Returns how many pods the old sets may lose.
fn room(pace: Pace, new: Tally, old: &[Tally]) -> u128
    ensures { result ≡ room pace new old.now }
{
    let fewest = pace.wanted.saturating_sub(pace.unavailable);
    let there = total_asked(old) + new.available as u128;
    there.saturating_sub(fewest as u128)
}

/// Returns how many available pods there are above the fewest.
fn spare(pace: Pace, new: Tally, old: &[Tally]) -> u128
    ensures { result ≡ available (new ∷ old.now) - fewest pace }
{
    let fewest = pace.wanted.saturating_sub(pace.unavailable);
    let there = total_available(old) + new.available as u128;
    there.saturating_sub(fewest as u128)
}

/// Returns how many pods each of the old sets is to have. The error is running out of memory.
pub(crate) fn shrunk(
    alloc: Global,
    pace: Pace,
    new: Tally,
    old: &[Tally],
) -> Result<Vec<u64>, AllocError>
    ensures { IfOk result (λ v. v.items ≡ shrunk pace new old.now) }
{
    let room = room(pace, new, old);
    if room == 0 {
        return asked(alloc, old);
    }
    let left = without_missing(alloc, room, old)?;
    without_spare(alloc, spare(pace, new, old), &left)
}

//! Sets in the order of their age, and of their revisions.
ghost use Rattle.std.specs.Prelude.{◌≡◌, OnOk, map};
ghost use Rattle.std.specs.Ordering.{nat_cmp, on};
ghost use Rattle.spec_reconcile.specs.Deployments.{age_cmp};
ghost use Rattle.spec_reconcile.specs.Orders.{in_order};
ghost use Rattle.spec_reconcile.specs.PodRanks.{creation};
ghost use Rattle.spec_reconcile.specs.Revisions.{revision};
ghost use Rattle.reconcile_types.specs.Entries.{entry_of};

use crate::revisions::revision;
use meta::Object;
use object_fields::text_in;
use reconcile_types::Entry;
use std::alloc::AllocError;
use std::cmp::Ordering;

/// Returns when an object was created; the empty text where it does not say.
fn creation(object: &Object) -> &str
    ensures { result.now ≡ creation object.now.value }
{
    text_in(object.metadata_member("creationTimestamp"))
}

/// Compares two sets by creationTimestamp, then by name.
fn age_cmp(one: &Entry<'_>, other: &Entry<'_>) -> Ordering
    ensures { result ≡ age_cmp (entry_of one.now) (entry_of other.now) }
{
    match creation(one.object).cmp(creation(other.object)) {
        Ordering::Equal => one.key.cmp(other.key),
        order => order,
    }
}

/// Compares two sets by their revisions.
fn revision_cmp(one: &Entry<'_>, other: &Entry<'_>) -> Ordering
    ensures { result ≡ nat_cmp (revision (entry_of one.now).1) (revision (entry_of other.now).1) }
{
    revision(one.object).cmp(&revision(other.object))
}

/// Puts sets in the order of their age. The error is running out of memory.
pub(crate) fn sort_by_age(sets: &mut Vec<Entry<'_>>) -> Result<(), AllocError>
    ensures { OnOk result (map entry_of sets.new.items ≡ in_order age_cmp (map entry_of sets.old.items)) }
{
    sets.sort_by(|one, other| age_cmp(one, other))
}

/// Puts sets in the order of their revisions; those of one revision stay as they stand. The error is running out of memory.
pub(crate) fn sort_by_revision(sets: &mut Vec<Entry<'_>>) -> Result<(), AllocError>
    ensures { OnOk result (map entry_of sets.new.items
        ≡ in_order (on (λ s. revision s.1) nat_cmp) (map entry_of sets.old.items)) }
{
    sets.sort_by(|one, other| revision_cmp(one, other))
}

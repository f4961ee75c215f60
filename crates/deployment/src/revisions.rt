//! Which revision of its Deployment a set is.
ghost use Rattle.std.specs.Prelude.{◌≡◌, ◌<◌, ◌≤◌, ◌^◌, IfOk, codes, length, true};
ghost use Rattle.std.specs.List.{list_all};
ghost use Rattle.std.specs.Str.Parse.{digits_value};
ghost use Rattle.serde_json.specs.Data.{object, put};
ghost use Rattle.spec_api.specs.Metadata.{metadata, metadata_of};
ghost use Rattle.spec_api.specs.Moments.{is_digit};
ghost use Rattle.spec_api.specs.Values.{inner_of, members_of};
ghost use Rattle.spec_reconcile.specs.Revisions.{annotated, is_revision, raised, revision, revision_said, with_revision};

use meta::Object;
use object_fields::digits::{has_digits, number_of};
use object_fields::{inner, text_in};
use serde_json::Value;
use std::alloc::{AllocError, Global};

/// The annotation that says which revision a set is.
const REVISION: &str = "deployment.kubernetes.io/revision";

/// The most digits of a revision.
const MOST_DIGITS: usize = 18;

/// The greatest revision: the greatest number of that many digits.
pub(crate) const GREATEST_REVISION: u64 = 999_999_999_999_999_999;

fn revision_said(text: &str) -> u64
    ensures value { result ≡ revision_said text.now }
    ensures small { result < 2 ^ 60 }
{
    if text.is_empty() {
        return 0;
    }
    if text.len() > MOST_DIGITS {
        return 0;
    }
    if !has_digits(text) {
        return 0;
    }
    number_of(text)
}

/// Returns which revision of its Deployment a set is; 0 where it does not say.
pub(crate) fn revision(set: &Object) -> u64
    ensures value { result ≡ revision set.now.value }
    ensures small { result < 2 ^ 60 }
{
    match set.metadata_member("annotations") {
        Some(annotations) => revision_said(text_in(annotations.get(REVISION))),
        None => 0,
    }
}

/// Returns annotations that say a revision. The error is running out of memory.
pub(crate) fn annotated(
    alloc: Global,
    annotations: Object,
    revision: u64,
) -> Result<Object, AllocError>
    ensures { IfOk result (λ o. o.value ≡ object (annotated revision (members_of annotations.value))) }
{
    let text = format!(in alloc; "{revision}")?;
    annotations.set_member(alloc, REVISION, Value::String(text))
}

/// Returns the annotations of a set as a revision.
fn annotations(alloc: Global, set: &Object, revision: u64) -> Result<Object, AllocError>
    ensures { IfOk result (λ o. o.value
        ≡ object (annotated revision (inner_of (metadata (codes "annotations") set.now.value)))) }
{
    let annotations = inner(alloc, set.kind(), set.metadata_member("annotations"))?;
    annotated(alloc, annotations, revision)
}

/// Returns the metadata of a set as a revision.
fn revised_metadata(alloc: Global, set: &Object, revision: u64) -> Result<Object, AllocError>
    ensures { IfOk result (λ o. o.value ≡ object (put (codes "annotations")
        (object (annotated revision (inner_of (metadata (codes "annotations") set.now.value)))) (metadata_of set.now.value))) }
{
    let annotations = annotations(alloc, set, revision)?;
    let metadata = inner(alloc, set.kind(), set.member("metadata"))?;
    metadata.set_member(alloc, "annotations", annotations.into_value())
}

/// Returns a copy of a set as a revision.
fn with_revision(alloc: Global, set: &Object, revision: u64) -> Result<Object, AllocError>
    ensures { IfOk result (λ o. o.value ≡ with_revision revision set.now.value) }
{
    let metadata = revised_metadata(alloc, set, revision)?;
    let copy = set.try_copy()?;
    copy.set_member(alloc, "metadata", metadata.into_value())
}

/// Returns a copy of a set as the revision that is due, if that is above its own. The error is running out of memory.
pub(crate) fn raised(alloc: Global, set: &Object, due: u64) -> Result<Object, AllocError>
    ensures { IfOk result (λ o. o.value ≡ raised due set.now.value) }
{
    if revision(set) < due {
        with_revision(alloc, set, due)
    } else {
        set.try_copy()
    }
}

//! What the server makes of a new object.
ghost use Rattle.std.specs.Prelude.{◌≡◌, ◌≤◌, ◌+◌, IfOk, OnOk, string_bytes};
ghost use Rattle.spec_api.specs.Metadata as metadata;
ghost use Rattle.spec_api.specs.NewObjects.{new_metadata, with_first_status, with_generation};
ghost use Rattle.spec_api.specs.Revisions.{greatest_revision};

use meta::Object;
use metadata_editor::Draft;
use metadata_values::moments::Moment;
use metadata_values::uids::uid_text;
use object_keys::Key;
use spec_api::kinds::Kind;
use std::alloc::{AllocError, Global};
use verb_parts::first_status::first_status;

/// The 48 bits of a uid that say in which cluster it was given.
const CLUSTER: u64 = 0;

/// Returns the object with the first status of a kind, whatever status the body has.
pub fn with_first_status(alloc: Global, object: Object, kind: Kind) -> Result<Object, AllocError>
    ensures value { IfOk result (λ o. o.value ≡ with_first_status kind object.value) }
    ensures kind { IfOk result (λ o. o.kind ≡ object.kind) }
{
    match first_status(alloc, kind)? {
        Some(status) => object.set_member(alloc, "status", status),
        None => Ok(object),
    }
}

/// Counts the first generation, for a kind that has generations.
fn set_generation(alloc: Global, draft: &mut Draft, kind: Kind) -> Result<(), AllocError>
    ensures metadata { OnOk result (draft.new.metadata ≡ with_generation kind draft.old.metadata) }
    ensures rest { draft.new.rest ≡ draft.old.rest }
{
    if !kind.has_generation() {
        return Ok(());
    }
    draft.set_count(alloc, "generation", 1)
}

/// Sets what the server sets in the metadata of a new object under a key, but for its version.
fn set_metadata(
    alloc: Global,
    draft: &mut Draft,
    key: &Key,
    moment: Moment,
    revision: u64,
) -> Result<(), AllocError>
    requires { revision ≤ greatest_revision + 1 }
    ensures metadata { OnOk result (draft.new.metadata
        ≡ new_metadata key.now.kind revision (string_bytes key.now.namespace) (string_bytes key.now.name) moment draft.old.metadata) }
    ensures rest { OnOk result (draft.new.rest ≡ draft.old.rest) }
{
    let uid = uid_text(alloc, CLUSTER, revision)?;
    draft.remove("deletionTimestamp");
    set_generation(alloc, draft, key.kind)?;
    draft.set_text(alloc, "name", key.name.as_str())?;
    draft.set_text(alloc, "namespace", key.namespace.as_str())?;
    draft.set_text(alloc, "creationTimestamp", moment.as_str())?;
    draft.set_text(alloc, "uid", uid.as_str())
}

/// Returns the object, which has its first status, with what the server sets in the metadata of a new one under a key, after a
/// revision.
pub fn created(
    alloc: Global,
    object: Object,
    key: &Key,
    moment: Moment,
    before: u64,
) -> Result<Object, AllocError>
    requires { before ≤ greatest_revision }
    ensures { IfOk result (λ o. o.value
        ≡ metadata.at_revision (before + 1)
        (new_metadata key.now.kind (before + 1) (string_bytes key.now.namespace) (string_bytes key.now.name) moment (metadata.metadata_of object.value))
        object.value) }
{
    let digits = (before + 1).to_string(alloc)?;
    let mut draft = Draft::new(alloc, object)?;
    set_metadata(alloc, &mut draft, key, moment, before + 1)?;
    draft.set_text(alloc, "resourceVersion", digits.as_str())?;
    let made = draft.close(alloc)?;
    Ok(made)
}

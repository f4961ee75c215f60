//! What a delete does to an object.
ghost use Rattle.std.specs.Prelude.{◌≡◌, ◌==◌, ◌&&◌, IfOk, OnOk, codes, option_map, string_bytes, is_some, false};
ghost use Rattle.serde_json.specs.Data.{string, array, put};
ghost use Rattle.serde_json.specs.Events.{items_len};
ghost use Rattle.serde_json.specs.View.{items_view};
ghost use Rattle.serde_json.specs.Written.{items_have_float};
ghost use Rattle.spec_api.specs.Checks.{finalizers};
ghost use Rattle.spec_api.specs.Deletion.{left_by, leaves, with_deletion, being_deleted, fate, decided};
ghost use Rattle.spec_api.specs.Kinds.{has_generation};
ghost use Rattle.spec_api.specs.Metadata.{metadata_of, uid, version, differs, is_being_deleted};
ghost use Rattle.spec_api.specs.Replacements.{with_next_generation};
ghost use Rattle.lifecycle.specs.Fates.{Decides, fate_seen, mismatch};
ghost use Rattle.lifecycle.specs.Options.{options_seen};
ghost use Rattle.lifecycle.specs.declared.fates.DeleteFault.TheVariants.{NoMemory};

use crate::finalizers::{leaves, left_by};
use crate::options::DeleteOptions;
use meta::Object;
use metadata_editor::Draft;
use metadata_values::moments::Moment;
use serde_json::Value;
use spec_api::kinds::Kind;
use spec_api::policies::Policy;
use spec_api::refusals::Mismatch;
use std::alloc::{AllocError, Global};
use thiserror::Error;

/// What becomes of an object that is deleted.
#[derive(Drop)]
pub enum Fate {
    /// It is removed.
    Remove,
    /// It is being deleted from now on, or left to other finalizers: the object as it is then, so far at its version.
    Mark(Object),
    /// It stays as it is: it is being deleted already, and left to these finalizers.
    Keep,
}

/// Why an object is not deleted.
#[derive(Debug, Drop, Error)]
pub enum DeleteFault {
    /// A precondition is not met.
    #[error("a precondition is not met")]
    Mismatch(Mismatch),
    /// Memory was wanted and refused.
    #[error("out of memory")]
    NoMemory,
}

impl From<AllocError> for DeleteFault {
    ghost from_gives = { λ _ e. e ≡ NoMemory };

    fn from(_: AllocError) -> DeleteFault {
        DeleteFault::NoMemory
    }
}

/// Returns what a delete with these options does, at a moment, to the object of a kind that is stored. The errors are the first
/// precondition that is not met, and running out of memory.
pub fn decide_delete(
    alloc: Global,
    kind: Kind,
    existing: &Object,
    options: &DeleteOptions,
    moment: Moment,
) -> Result<Fate, DeleteFault>
    ensures { Decides (decided kind (options_seen options.now) moment existing.now.value) result }
{
    match mismatch(existing, options) {
        Some(why) => Err(DeleteFault::Mismatch(why)),
        None => Ok(fate_of(alloc, kind, existing, options.policy, moment)?),
    }
}

/// Returns whether a text is named, and the object has another one, or none.
fn differs(named: &Option<String>, existing: Option<&str>) -> bool
    ensures { result ≡ differs (option_map string_bytes named.now) (option_map (λ s. s.now) existing.entry) }
{
    match (named, existing) {
        (None, _) => false,
        (Some(_), None) => true,
        (Some(text), Some(other)) => text.as_str() != other,
    }
}

/// Returns the first of the preconditions that the object does not meet: of the uid, then of the version.
fn mismatch(existing: &Object, options: &DeleteOptions) -> Option<Mismatch>
    ensures { result ≡ mismatch (options_seen options.now) existing.now.value }
{
    if differs(&options.uid, existing.uid()) {
        return Some(Mismatch::Uid);
    }
    if differs(&options.version, existing.resource_version()) {
        return Some(Mismatch::ResourceVersion);
    }
    None
}

/// Returns what a delete whose preconditions are met does.
fn fate_of(
    alloc: Global,
    kind: Kind,
    existing: &Object,
    policy: Option<Policy>,
    moment: Moment,
) -> Result<Fate, AllocError>
    ensures { IfOk result (λ f. fate_seen f ≡ fate kind policy moment existing.now.value) }
{
    let left = left_by(alloc, policy, existing.finalizers())?;
    if is_none(left.as_slice()) {
        return Ok(Fate::Remove);
    }
    if is_left_alone(policy, existing) {
        return Ok(Fate::Keep);
    }
    let object = marked(alloc, kind, existing, left, moment)?;
    Ok(Fate::Mark(object))
}

/// Returns whether there is no finalizer.
fn is_none(items: &[Value]) -> bool
    ensures { result ≡ (items_len (items_view items.now) == 0) }
{
    items.is_empty()
}

/// Returns whether the object is being deleted already, and left to the finalizers that it has.
fn is_left_alone(policy: Option<Policy>, existing: &Object) -> bool
    ensures { result ≡ (is_being_deleted existing.now.value && leaves policy (finalizers existing.now.value)) }
{
    existing.is_being_deleted() && leaves(policy, existing.finalizers())
}

/// Returns the object with its deletionTimestamp set and these finalizers, still at its old resourceVersion.
fn marked(
    alloc: Global,
    kind: Kind,
    existing: &Object,
    left: Vec<Value>,
    moment: Moment,
) -> Result<Object, AllocError>
    requires no_float { items_have_float (items_view left.items) ≡ false }
    ensures { IfOk result (λ o. o.value ≡ being_deleted kind moment (items_view left.items) existing.now.value) }
{
    let mut draft = Draft::new(alloc, existing.try_copy()?)?;
    set_deletion(alloc, &mut draft, kind, existing, moment)?;
    draft.set_items(alloc, "finalizers", left)?;
    let made = draft.close(alloc)?;
    Ok(made)
}

/// Sets what is told of the deletion of an object that was not being deleted: since when, and a new generation.
fn set_deletion(
    alloc: Global,
    draft: &mut Draft,
    kind: Kind,
    existing: &Object,
    moment: Moment,
) -> Result<(), AllocError>
    requires { draft.old.metadata ≡ metadata_of existing.now.value }
    ensures metadata { OnOk result (draft.new.metadata ≡ with_deletion kind moment existing.now.value) }
    ensures rest { OnOk result (draft.new.rest ≡ draft.old.rest) }
{
    if existing.is_being_deleted() {
        return Ok(());
    }
    raise_generation(alloc, draft, kind, existing)?;
    draft.set_text(alloc, "deletionTimestamp", moment.as_str())
}

/// Sets the generation after that of the stored object, for a kind that has generations.
fn raise_generation(
    alloc: Global,
    draft: &mut Draft,
    kind: Kind,
    existing: &Object,
) -> Result<(), AllocError>
    ensures metadata { OnOk result (draft.new.metadata
        ≡ with_next_generation (has_generation kind) existing.now.value draft.old.metadata) }
    ensures rest { draft.new.rest ≡ draft.old.rest }
{
    if kind.has_generation() {
        draft.set_count(alloc, "generation", existing.next_generation())
    } else {
        Ok(())
    }
}

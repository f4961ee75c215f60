//! Generations and revisions of what replaces an object.
ghost use Rattle.std.specs.Prelude.{◌≡◌, ◌+◌, ◌≤◌, IfOk, OnOk, codes, decimal, string_bytes};
ghost use Rattle.serde_json.specs.Data.{string, put};
ghost use Rattle.serde_json.specs.Find.{get};
ghost use Rattle.spec_api.specs.Checks.{text_or_empty};
ghost use Rattle.spec_api.specs.Metadata.{metadata, metadata_of, at_revision};
ghost use Rattle.spec_api.specs.Replacements.{has_new_spec, has_new_annotations, is_new_generation, next_generation, with_next_generation, updated};
ghost use Rattle.spec_api.specs.Revisions.{greatest_revision};

use meta::Object;
use metadata_editor::Draft;
use spec_api::kinds::Kind;
use std::alloc::{AllocError, Global};

/// Returns the text of an object's spec, which is empty where there is none.
fn spec_text(alloc: Global, object: &Object) -> Result<String, AllocError>
    ensures { IfOk result (λ s. string_bytes s ≡ text_or_empty (get (codes "spec") object.now.value)) }
{
    match object.member("spec") {
        Some(found) => found.to_string(alloc),
        None => Ok(String::new(alloc)),
    }
}

/// Returns the text of an object's annotations, which is empty where there are none.
fn annotations_text(alloc: Global, object: &Object) -> Result<String, AllocError>
    ensures { IfOk result (λ s. string_bytes s ≡ text_or_empty (metadata (codes "annotations") object.now.value)) }
{
    match object.metadata_member("annotations") {
        Some(found) => found.to_string(alloc),
        None => Ok(String::new(alloc)),
    }
}

fn has_new_spec(alloc: Global, existing: &Object, object: &Object) -> Result<bool, AllocError>
    ensures { IfOk result (λ b. b ≡ has_new_spec existing.now.value object.now.value) }
{
    let before = spec_text(alloc, existing)?;
    let after = spec_text(alloc, object)?;
    Ok(before.as_str() != after.as_str())
}

fn has_new_annotations(
    alloc: Global,
    existing: &Object,
    object: &Object,
) -> Result<bool, AllocError>
    ensures { IfOk result (λ b. b ≡ has_new_annotations existing.now.value object.now.value) }
{
    let before = annotations_text(alloc, existing)?;
    let after = annotations_text(alloc, object)?;
    Ok(before.as_str() != after.as_str())
}

/// Returns whether an object is a new generation of the stored one.
fn is_new_generation(
    alloc: Global,
    kind: Kind,
    existing: &Object,
    object: &Object,
) -> Result<bool, AllocError>
    ensures { IfOk result (λ b. b ≡ is_new_generation kind existing.now.value object.now.value) }
{
    match kind {
        Kind::Deployment => {
            if has_new_spec(alloc, existing, object)? {
                return Ok(true);
            }
            has_new_annotations(alloc, existing, object)
        }
        _ if kind.has_generation() => has_new_spec(alloc, existing, object),
        _ => Ok(false),
    }
}

/// Sets the generation after that of the stored object, where it is a new one.
fn raise_generation(
    alloc: Global,
    draft: &mut Draft,
    is_new: bool,
    existing: &Object,
) -> Result<(), AllocError>
    ensures metadata { OnOk result (draft.new.metadata ≡ with_next_generation is_new existing.now.value draft.old.metadata) }
    ensures rest { draft.new.rest ≡ draft.old.rest }
    ensures kind { draft.new.kind ≡ draft.old.kind }
{
    if is_new {
        draft.set_count(alloc, "generation", existing.next_generation())
    } else {
        Ok(())
    }
}

/// Sets the revision after this one.
fn set_revision(alloc: Global, draft: &mut Draft, before: u64) -> Result<(), AllocError>
    requires { before ≤ greatest_revision }
    ensures metadata { OnOk result (draft.new.metadata ≡ put (codes "resourceVersion") (string (decimal (before + 1))) draft.old.metadata) }
    ensures rest { draft.new.rest ≡ draft.old.rest }
    ensures kind { draft.new.kind ≡ draft.old.kind }
{
    let digits = (before + 1).to_string(alloc)?;
    draft.set_text(alloc, "resourceVersion", digits.as_str())
}

/// Returns the object at the revision after this one.
pub fn at_revision(alloc: Global, object: Object, before: u64) -> Result<Object, AllocError>
    requires { before ≤ greatest_revision }
    ensures { IfOk result (λ o. o.value ≡ at_revision (before + 1) (metadata_of object.value) object.value) }
{
    let mut draft = Draft::new(alloc, object)?;
    set_revision(alloc, &mut draft, before)?;
    let made = draft.close(alloc)?;
    Ok(made)
}

/// Returns the object as it stands in the place of the stored one, at the revision after this one.
pub fn updated(
    alloc: Global,
    kind: Kind,
    object: Object,
    existing: &Object,
    before: u64,
) -> Result<Object, AllocError>
    requires { before ≤ greatest_revision }
    ensures { IfOk result (λ o. o.value ≡ updated kind (before + 1) existing.now.value object.value) }
{
    let is_new = is_new_generation(alloc, kind, existing, &object)?;
    let mut draft = Draft::new(alloc, object)?;
    raise_generation(alloc, &mut draft, is_new, existing)?;
    set_revision(alloc, &mut draft, before)?;
    let made = draft.close(alloc)?;
    Ok(made)
}

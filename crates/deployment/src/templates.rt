//! Templates of pods: which are the same.
ghost use Rattle.std.specs.Prelude.{◌≡◌, IfOk, string_bytes, false};
ghost use Rattle.serde_json.specs.Data.{object};
ghost use Rattle.serde_json.specs.View.{members_view};
ghost use Rattle.serde_json.specs.Written.{compact_text, members_have_float};
ghost use Rattle.spec_api.specs.Metadata.{labels_of};
ghost use Rattle.spec_api.specs.Values.{members_of, without};
ghost use Rattle.spec_reconcile.specs.NewPods.{template};
ghost use Rattle.spec_reconcile.specs.Templates.{bare, bare_metadata, hash_label, with_filled};

use json_values::members::{into_members, remove};
use meta::Object;
use object_fields::{blank, in_spec, inner};
use serde_json::{Map, Value};
use std::alloc::{AllocError, Global};

/// The label of the hash of a template.
pub(crate) const HASH_LABEL: &str = "pod-template-hash";

/// Returns a copy of an object's template; one that says nothing where it has none. The error is running out of memory.
pub(crate) fn template(alloc: Global, object: &Object) -> Result<Object, AllocError>
    ensures { IfOk result (λ o. o.value ≡ template object.now.value) }
{
    inner(alloc, object.kind(), in_spec(object, "template"))
}

/// Returns the labels of a template but for that of the hash.
fn bare_labels(alloc: Global, template: &Object) -> Result<Map<String, Value>, AllocError>
    ensures members { IfOk result (λ m. members_view m.entries ≡ without hash_label (labels_of template.now.value)) }
    ensures no_float { IfOk result (λ m. members_have_float (members_view m.entries) ≡ false) }
{
    let labels = inner(alloc, template.kind(), template.metadata_member("labels"))?;
    let mut members = into_members(alloc, labels.into_value());
    remove(&mut members, HASH_LABEL);
    Ok(members)
}

/// Returns the object with these members in the one at `name`, or without that where there are none.
fn with_filled(
    alloc: Global,
    holder: Object,
    name: &str,
    members: Map<String, Value>,
) -> Result<Object, AllocError>
    requires no_float { members_have_float (members_view members.entries) ≡ false }
    ensures { IfOk result (λ o. o.value
        ≡ object (with_filled name.now (members_view members.entries) (members_of holder.value))) }
{
    if members.len() == 0 {
        let nothing = blank(alloc, holder.kind());
        return holder.keep_member(alloc, name, &nothing);
    }
    holder.set_member(alloc, name, Value::Object(members))
}

/// Returns the metadata of a template without the label of the hash.
fn bare_metadata(alloc: Global, template: &Object) -> Result<Map<String, Value>, AllocError>
    ensures members { IfOk result (λ m. members_view m.entries ≡ bare_metadata template.now.value) }
    ensures no_float { IfOk result (λ m. members_have_float (members_view m.entries) ≡ false) }
{
    let metadata = inner(alloc, template.kind(), template.member("metadata"))?;
    let labels = bare_labels(alloc, template)?;
    let metadata = with_filled(alloc, metadata, "labels", labels)?;
    Ok(into_members(alloc, metadata.into_value()))
}

/// Returns the template without the label of the hash, and without labels and metadata that have nothing else in them.
fn bare(alloc: Global, template: Object) -> Result<Object, AllocError>
    ensures { IfOk result (λ o. o.value ≡ bare template.value) }
{
    let metadata = bare_metadata(alloc, &template)?;
    with_filled(alloc, template, "metadata", metadata)
}

/// Returns the text of an object's template, by which it is compared. The error is running out of memory.
pub(crate) fn bare_text(alloc: Global, object: &Object) -> Result<String, AllocError>
    ensures { IfOk result (λ s. string_bytes s ≡ compact_text (bare (template object.now.value))) }
{
    let template = template(alloc, object)?;
    bare(alloc, template)?.text(alloc)
}

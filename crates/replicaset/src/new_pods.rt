//! The pods that a ReplicaSet creates.
ghost use Rattle.std.specs.Prelude.{◌≡◌, ◌++◌, ◌∷◌, [], IfOk, OnOk, codes, string_bytes, false};
ghost use Rattle.serde_json.specs.Data.{object, put, no_members, no_items, item, array};
ghost use Rattle.serde_json.specs.View.{view, items_view};
ghost use Rattle.serde_json.specs.Written.{has_float, items_have_float};
ghost use Rattle.spec_api.specs.declared.kinds.Kind.TheVariants as kind;
ghost use Rattle.spec_api.specs.Metadata.{metadata_of};
ghost use Rattle.spec_api.specs.Replacements.{keeping};
ghost use Rattle.object_keys.specs.Keys.{key_of};
ghost use Rattle.spec_reconcile.specs.NewPods.{template, copied, new_metadata, new_pod};
ghost use Rattle.spec_reconcile.specs.MetadataEdits.{controller_reference};

use meta::{Kind, Object};
use metadata_editor::Draft;
use object_fields::{blank, in_spec, inner};
use object_keys::Key;
use owner_references::edits::controller_reference;
use serde_json::Value;
use std::alloc::{AllocError, Global};

/// Returns a copy of the set's template; an object that says nothing where it has none. The error is running out of memory.
fn template(alloc: Global, set: &Object) -> Result<Object, AllocError>
    ensures { IfOk result (λ o. o.value ≡ template set.now.value) }
{
    inner(alloc, Kind::Pod, in_spec(set, "template"))
}

/// Sets in a draft what a new pod has of its template's metadata. The error is running out of memory.
fn copy_metadata(alloc: Global, draft: &mut Draft, template: &Object) -> Result<(), AllocError>
    ensures metadata { OnOk result (draft.new.metadata
        ≡ keeping copied (metadata_of template.now.value) draft.old.metadata) }
    ensures rest { draft.new.rest ≡ draft.old.rest }
    ensures kind { draft.new.kind ≡ draft.old.kind }
{
    draft.keep(alloc, "annotations", template)?;
    draft.keep(alloc, "finalizers", template)?;
    draft.keep(alloc, "labels", template)
}

/// Returns the list of the one reference to the set as the controller. The error is running out of memory.
fn owner_references(alloc: Global, key: &Key, set: &Object) -> Result<Vec<Value>, AllocError>
    ensures items { IfOk result (λ v. items_view v.items ≡ item (controller_reference (key_of key.now) set.now.value) no_items) }
    ensures no_float { IfOk result (λ v. items_have_float (items_view v.items) ≡ false) }
{
    let reference = controller_reference(alloc, key, set)?;
    let mut references = Vec::new(alloc);
    references.push(reference)?;
    Ok(references)
}

/// Returns what the names of a set's pods are made of. The error is running out of memory.
fn generate_name(alloc: Global, key: &Key) -> Result<String, AllocError>
    ensures { IfOk result (λ s. string_bytes s ≡ (key_of key.now).name ++ codes "-") }
{
    let mut name = String::from_str(alloc, key.name.as_str())?;
    name.push_str("-")?;
    Ok(name)
}

/// Returns a new pod that has its metadata and nothing else. The error is running out of memory.
fn with_metadata(
    alloc: Global,
    key: &Key,
    set: &Object,
    described: &Object,
) -> Result<Object, AllocError>
    requires { described.now.value ≡ template set.now.value }
    ensures value { IfOk result (λ o. o.value
        ≡ object (put (codes "metadata") (object (new_metadata (key_of key.now) set.now.value)) no_members)) }
    ensures kind { IfOk result (λ o. o.kind ≡ kind.Pod) }
{
    let mut draft = Draft::new(alloc, blank(alloc, Kind::Pod))?;
    copy_metadata(alloc, &mut draft, described)?;
    draft.set_text(alloc, "generateName", generate_name(alloc, key)?.as_str())?;
    draft.set_items(alloc, "ownerReferences", owner_references(alloc, key, set)?)?;
    draft.close(alloc)
}

/// Returns the pod that the set creates. The error is running out of memory.
pub(crate) fn new_pod(alloc: Global, key: &Key, set: &Object) -> Result<Object, AllocError>
    ensures value { IfOk result (λ o. o.value ≡ new_pod (key_of key.now) set.now.value) }
    ensures kind { IfOk result (λ o. o.kind ≡ kind.Pod) }
{
    let described = template(alloc, set)?;
    let pod = with_metadata(alloc, key, set, &described)?;
    pod.keep_member(alloc, "spec", &described)
}

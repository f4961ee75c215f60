//! The set that is made of a Deployment's template.
ghost use Rattle.std.specs.Prelude.{◌≡◌, ◌++◌, ◌∷◌, [], IfOk, codes, map, string_bytes, false};
ghost use Rattle.serde_json.specs.Data.{array, item, no_items, no_members, object, put, string};
ghost use Rattle.serde_json.specs.Find.{get};
ghost use Rattle.serde_json.specs.View.{view};
ghost use Rattle.serde_json.specs.Written.{has_float};
ghost use Rattle.spec_api.specs.declared.kinds.Kind.TheVariants as kind;
ghost use Rattle.spec_api.specs.Defaults.{unsigned_value};
ghost use Rattle.spec_api.specs.Metadata.{labels_of};
ghost use Rattle.spec_api.specs.Values.{inner_of, members_of};
ghost use Rattle.object_keys.specs.Keys.{key_of};
ghost use Rattle.spec_reconcile.specs.Deployments.{due, hash_of, make, new_name, new_object};
ghost use Rattle.spec_reconcile.specs.MetadataEdits.{controller_reference};
ghost use Rattle.spec_reconcile.specs.NewPods.{template};
ghost use Rattle.spec_reconcile.specs.Revisions.{annotated};
ghost use Rattle.spec_reconcile.specs.Templates.{labelled, new_set_metadata, new_set_spec, selecting, selector, set_name, with_hash};
ghost use Rattle.deployment.specs.Sets.{rollout_seen};
ghost use Rattle.reconcile_types.specs.Commands.{command_of};

use crate::hashes::template_hash;
use crate::revisions::annotated;
use crate::rollout::{Rollout, due};
use crate::templates::{HASH_LABEL, template};
use json_values::values::whole_number;
use meta::{Kind, Object};
use object_fields::{blank, in_spec, inner};
use owner_references::edits::controller_reference;
use reconcile_types::{Command, count_in_status};
use serde_json::Value;
use std::alloc::{AllocError, Global};

/// Returns the hash of a Deployment's template. The error is running out of memory.
fn hash_of(alloc: Global, deployment: &Object) -> Result<String, AllocError>
    ensures { IfOk result (λ s. string_bytes s ≡ hash_of deployment.now.value) }
{
    let template = template(alloc, deployment)?;
    template_hash(
        alloc,
        &template,
        count_in_status(deployment, "collisionCount"),
    )
}

/// Returns the name of the new set. The error is running out of memory.
fn set_name(alloc: Global, deployment: &str, hash: &str) -> Result<String, AllocError>
    ensures { IfOk result (λ s. string_bytes s ≡ set_name deployment.now hash.now) }
{
    let mut name = String::from_str(alloc, deployment)?;
    name.push_str("-")?;
    name.push_str(hash)?;
    Ok(name)
}

/// Returns the name of the new set of a Deployment. The error is running out of memory.
pub(crate) fn new_name(alloc: Global, rollout: &Rollout<'_>) -> Result<String, AllocError>
    ensures { IfOk result (λ s. string_bytes s ≡ new_name (rollout_seen rollout.now)) }
{
    let hash = hash_of(alloc, rollout.deployment)?;
    set_name(alloc, rollout.key.name.as_str(), hash.as_str())
}

/// Returns the object with a text at a member.
fn with_text(alloc: Global, earlier: Object, name: &str, text: &str) -> Result<Object, AllocError>
    ensures { IfOk result (λ o. o.value ≡ object (put name.now (string text.now) (members_of earlier.value))) }
{
    earlier.set_member(alloc, name, Value::try_from_str(alloc, text)?)
}

/// Returns the object with another at a member.
fn with_inner(
    alloc: Global,
    earlier: Object,
    name: &str,
    within: Object,
) -> Result<Object, AllocError>
    ensures { IfOk result (λ o. o.value ≡ object (put name.now within.value (members_of earlier.value))) }
{
    earlier.set_member(alloc, name, within.into_value())
}

/// Returns the labels with that of the hash.
fn with_hash(alloc: Global, labels: Object, hash: &str) -> Result<Object, AllocError>
    ensures { IfOk result (λ o. o.value ≡ object (with_hash hash.now (members_of labels.value))) }
{
    with_text(alloc, labels, HASH_LABEL, hash)
}

/// Returns the labels of a template with that of the hash.
fn labels(alloc: Global, template: &Object, hash: &str) -> Result<Object, AllocError>
    ensures { IfOk result (λ o. o.value ≡ object (with_hash hash.now (labels_of template.now.value))) }
{
    let labels = inner(alloc, template.kind(), template.metadata_member("labels"))?;
    with_hash(alloc, labels, hash)
}

/// Returns a copy of a template with the label of the hash.
fn labelled(alloc: Global, template: &Object, hash: &str) -> Result<Object, AllocError>
    ensures { IfOk result (λ o. o.value ≡ labelled hash.now template.now.value) }
{
    let metadata = inner(alloc, template.kind(), template.member("metadata"))?;
    let metadata = with_inner(alloc, metadata, "labels", labels(alloc, template, hash)?)?;
    with_inner(alloc, template.try_copy()?, "metadata", metadata)
}

/// Returns the selector of a Deployment with the label of the hash.
fn selecting(alloc: Global, deployment: &Object, hash: &str) -> Result<Object, AllocError>
    ensures { IfOk result (λ o. o.value ≡ object (selecting hash.now (selector deployment.now.value))) }
{
    let selector = inner(alloc, deployment.kind(), in_spec(deployment, "selector"))?;
    let labels = inner(alloc, deployment.kind(), selector.member("matchLabels"))?;
    let labels = with_hash(alloc, labels, hash)?;
    with_inner(alloc, selector, "matchLabels", labels)
}

/// Returns the list of one value.
fn one(alloc: Global, value: Value) -> Result<Value, AllocError>
    requires { has_float (view value) ≡ false }
    ensures value { IfOk result (λ v. view v ≡ array (item (view value) no_items)) }
    ensures no_float { IfOk result (λ v. has_float (view v) ≡ false) }
{
    let mut items = Vec::new(alloc);
    items.push(value)?;
    Ok(Value::Array(items))
}

/// Returns the metadata of the new set.
fn new_set_metadata(
    alloc: Global,
    rollout: &Rollout<'_>,
    template: &Object,
    hash: &str,
) -> Result<Object, AllocError>
    ensures { IfOk result (λ o. o.value ≡ object (new_set_metadata (set_name (key_of rollout.now.key.now).name hash.now)
        (controller_reference (key_of rollout.now.key.now) rollout.now.deployment.now.value) hash.now template.now.value
        (annotated (due (rollout_seen rollout.now)) no_members))) }
{
    let annotations = annotated(alloc, blank(alloc, Kind::ReplicaSet), due(rollout))?;
    let name = set_name(alloc, rollout.key.name.as_str(), hash)?;
    let owner = controller_reference(alloc, rollout.key, rollout.deployment)?;
    let metadata = blank(alloc, Kind::ReplicaSet);
    let metadata = with_inner(alloc, metadata, "annotations", annotations)?;
    let metadata = with_inner(alloc, metadata, "labels", labels(alloc, template, hash)?)?;
    let metadata = with_text(alloc, metadata, "name", name.as_str())?;
    metadata.set_member(alloc, "ownerReferences", one(alloc, owner)?)
}

/// Returns the spec of the new set.
fn new_set_spec(
    alloc: Global,
    deployment: &Object,
    template: &Object,
    hash: &str,
    replicas: u64,
) -> Result<Object, AllocError>
    ensures { IfOk result (λ o. o.value
        ≡ object (new_set_spec (selector deployment.now.value) hash.now template.now.value replicas)) }
{
    let spec = blank(alloc, Kind::ReplicaSet);
    let spec = spec.set_member(alloc, "replicas", whole_number(alloc, replicas)?)?;
    let spec = with_inner(alloc, spec, "selector", selecting(alloc, deployment, hash)?)?;
    with_inner(alloc, spec, "template", labelled(alloc, template, hash)?)
}

/// Returns the new set with so many pods.
fn new_object(alloc: Global, rollout: &Rollout<'_>, replicas: u64) -> Result<Object, AllocError>
    ensures value { IfOk result (λ o. o.value ≡ new_object (rollout_seen rollout.now) replicas) }
    ensures kind { IfOk result (λ o. o.kind ≡ kind.ReplicaSet) }
{
    let hash = hash_of(alloc, rollout.deployment)?;
    let template = template(alloc, rollout.deployment)?;
    let metadata = new_set_metadata(alloc, rollout, &template, hash.as_str())?;
    let spec = new_set_spec(
        alloc,
        rollout.deployment,
        &template,
        hash.as_str(),
        replicas,
    )?;
    let set = blank(alloc, Kind::ReplicaSet);
    let set = set.set_member(alloc, "metadata", metadata.into_value())?;
    set.set_member(alloc, "spec", spec.into_value())
}

/// Returns the command that creates the new set with so many pods. The error is running out of memory.
pub(crate) fn make(
    alloc: Global,
    rollout: &Rollout<'_>,
    replicas: u64,
) -> Result<Vec<Command>, AllocError>
    ensures { IfOk result (λ v. map command_of v.items ≡ make (rollout_seen rollout.now) replicas) }
{
    let object = new_object(alloc, rollout, replicas)?;
    let namespace = rollout.key.namespace.clone()?;
    let mut commands = Vec::new(alloc);
    commands.push(Command::Create { namespace, object })?;
    Ok(commands)
}

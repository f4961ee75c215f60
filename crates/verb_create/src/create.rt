//! What a create is answered and writes: a new object, or its first refusal.
ghost use Rattle.std.specs.Prelude.{◌≡◌, ◌<◌, ◌≤◌, ◌||◌, ◌+◌, ◌^◌, not, true, IfOk, IfErr, OnOk, is_some, string_bytes, option_map};
ghost use Rattle.spec_api.specs.Metadata as metadata;
ghost use Rattle.spec_api.specs.Metadata.{is_other};
ghost use Rattle.spec_api.specs.Verbs.{accept_at, new_name, is_too_large};
ghost use Rattle.spec_api.specs.ObjectRequests.{create_object};
ghost use Rattle.spec_api.proofs.VerbSteps.{create_as, create_read};
ghost use Rattle.spec_api.specs.Revisions.{greatest_revision};
ghost use Rattle.spec_api.specs.Values.{members_of};
ghost use Rattle.object_keys.specs.Keys.{key_of};
ghost use Rattle.serde_json.specs.View.{view};
ghost use Rattle.verb_parts.specs.Serves.{Serves};

use crate::made_names::made_key;
use crate::making::{created, with_first_status};
use defaults::defaults;
use meta::{Object, Write};
use metadata_values::GREATEST_REVISION;
use metadata_values::moments::Moment;
use object_keys::{Fault, Key};
use reply::Reply;
use serde_json::Value;
use spec_api::kinds::Kind;
use spec_api::refusals::Part;
use std::alloc::{AllocError, Global};
use store::{MOST_OBJECTS, Store};
use validate::check_create;
use verb_parts::limits::is_too_large;
use verb_parts::names_given::is_other;
use verb_parts::stored_texts::stored_with_text;

/// Returns a new object of a kind in a namespace, made of a body.
pub fn create(
    alloc: Global,
    store: &Store,
    kind: Kind,
    namespace: &str,
    body: Value,
    moment: Moment,
) -> Result<(Reply, Option<Write>), Fault>
    ensures { Serves (accept_at (create_object kind namespace.now (view body)) store.now.members store.now.revision moment) result }
{
    let object = Object::from_value(alloc, kind, body)?;
    let object = defaults(alloc, object)?;
    if is_misplaced(&object, namespace) {
        return Err(Fault::BadRequest(Part::Object));
    }
    let key = new_key(alloc, store, kind, namespace, &object)?;
    let object = with_first_status(alloc, object, kind)?;
    check_create(alloc, &object, &key, store.revision())?;
    let object = created(alloc, object, &key, moment, store.revision())?;
    create_as(alloc, store, key, &object)
}

/// Returns whether an object that is to be created names another namespace, or a version.
fn is_misplaced(object: &Object, namespace: &str) -> bool
    ensures { result ≡ (is_other (metadata.namespace object.now.value) namespace.now
        || is_some (metadata.version object.now.value)) }
{
    let elsewhere = is_other(object.namespace(), namespace);
    elsewhere || object.resource_version().is_some()
}

/// Returns the key of this name.
fn given_key(alloc: Global, kind: Kind, namespace: &str, name: &str) -> Result<Key, AllocError>
    ensures kind { IfOk result (λ k. k.kind ≡ kind) }
    ensures namespace { IfOk result (λ k. string_bytes k.namespace ≡ namespace.now) }
    ensures name { IfOk result (λ k. string_bytes k.name ≡ name.now) }
{
    Ok(Key {
        kind,
        namespace: String::from_str(alloc, namespace)?,
        name: String::from_str(alloc, name)?,
    })
}

/// Returns the key of a new object: with the name that it gives, or one that is made, or, where it gives neither, none.
fn new_key(
    alloc: Global,
    store: &Store,
    kind: Kind,
    namespace: &str,
    object: &Object,
) -> Result<Key, AllocError>
    ensures { IfOk result (λ k. key_of k
        ≡ new_name kind namespace.now object.now.value store.now.members store.now.revision) }
{
    match object.name() {
        Some(name) => given_key(alloc, kind, namespace, name),
        None => match object.generate_name() {
            Some(given) => made_key(alloc, store, kind, namespace, given),
            None => given_key(alloc, kind, namespace, ""),
        },
    }
}

/// Returns the object under a key where none is, or the first refusal: of the length, what is there, the room.
fn create_as(
    alloc: Global,
    store: &Store,
    key: Key,
    object: &Object,
) -> Result<(Reply, Option<Write>), Fault>
    ensures { Serves (create_as (key_of key) object.now.value store.now.members store.now.revision) result }
{
    let (stored, text) = stored_with_text(alloc, object)?;
    if is_too_large(text.as_str()) {
        return Err(Fault::TooLarge);
    }
    if store.get(&key).is_some() {
        return Err(Fault::AlreadyExists(key));
    }
    if store.len() >= MOST_OBJECTS || store.revision() >= GREATEST_REVISION {
        return Err(Fault::StorageFull);
    }
    let write = Write {
        key,
        put: Some(stored),
    };
    Ok((Reply { code: 201, text }, Some(write)))
}

//! A ConfigMap for each Pod: it has the Pod's name, the Pod owns it, and it says the Pod's phase. None is made for a Pod that is being deleted; what
//! is there stays until the Pod is gone.
ghost use Rattle.std.specs.Prelude.{◌≡◌, IfOk, IfErr, Some, Ok, map, option_map};
ghost use Rattle.std.specs.List.{list_any};
ghost use Rattle.serde_json.specs.View.{view};
ghost use Rattle.spec_api.specs.Keys.{is_same_key};
ghost use Rattle.object_keys.specs.Keys.{key_of};
ghost use Rattle.request_parts.specs.Requests.{request_of};
ghost use Rattle.reconciler.specs.Guarded.{Refuses, guarded};
ghost use Rattle.mirror_example.specs.Mirrored.{brought_up, changes, creates, decided, is_behind, is_left, naming, phase, saying_with, wanted};

use api_client::Api;
use indexer::{Indexed, Shift};
use meta::Object;
use object_fields::parts::{in_status, text_in};
use object_keys::Key;
use owner_references::controlled_by::is_controlled_by;
use owner_references::edits::controller_reference;
use owner_references::references::controller_keys;
use reconciler::{Failure, Outcome, PerKind, Reconciler, ask, deletion, namesake};
use request_parts::Request;
use serde_json::{Value, json};
use spec_api::kinds::Kind;
use std::alloc::{AllocError, Global};

/// Keeps a ConfigMap for each Pod that is shown. Its keys are those of Pods.
pub struct Mirror;

/// Returns the phase of a Pod.
fn phase(pod: &Object) -> &str
    ensures { result.now ≡ phase pod.now.value }
{
    text_in(in_status(pod, "phase"))
}

/// Returns whether a ConfigMap that a Pod owns says another phase than the Pod's.
fn is_behind(pod: &Object, map: &Object) -> bool
    ensures { result ≡ is_behind pod.now.value map.now.value }
{
    let said = map.member("data").and_then(|data| data.get("phase"));
    is_controlled_by(pod.uid().unwrap_or(""), map) && text_in(said) != phase(pod)
}

/// Returns whether two keys are the same.
fn is_same_key(one: &Key, other: &Key) -> bool
    ensures { result ≡ is_same_key (key_of one.now) (key_of other.now) }
{
    one.cmp(other).is_eq()
}

/// Returns whether a key is among others.
fn is_among(key: &Key, keys: &[Key]) -> bool
    ensures { result ≡ list_any (λ k. is_same_key k (key_of key.now)) (map key_of keys.now) }
{
    for other in keys {
        if is_same_key(other, key) {
            return true;
        }
    }
    false
}

/// Returns whether a ConfigMap is of a Pod that was called so and is not shown any more, whether or not another is called so now.
fn is_left(alloc: Global, key: &Key, pod: Option<&Object>, map: &Object) -> Result<bool, AllocError>
    ensures { IfOk result (λ b. b ≡ is_left (key_of key.now) (option_map (λ o. o.now.value) pod.entry) map.now.value) }
{
    let uid = pod.and_then(|pod| pod.uid()).unwrap_or("");
    Ok(!is_controlled_by(uid, map) && is_among(key, &controller_keys(alloc, Kind::Pod, map)?))
}

/// Returns what is said of the ConfigMap of a Pod beside its data: its name, and that the Pod owns it.
fn naming(alloc: Global, key: &Key, pod: &Object) -> Result<Value, AllocError>
    ensures { IfOk result (λ v. view v ≡ naming (key_of key.now) pod.now.value) }
{
    let owner = controller_reference(alloc, key, pod)?;
    let owners = Value::Array(vec![in alloc; owner]?);
    json!(in alloc; {"name": key.name.as_str(), "ownerReferences": owners})
}

/// Returns a ConfigMap, or a patch of one, that says a phase, with this metadata.
fn saying(alloc: Global, metadata: Value, phase: &str) -> Result<Value, AllocError>
    ensures { IfOk result (λ v. view v ≡ saying_with (view metadata) phase.now) }
{
    json!(in alloc; {"metadata": metadata, "data": {"phase": phase}})
}

/// Returns what makes the ConfigMap of a Pod.
fn creating(alloc: Global, key: &Key, pod: &Object) -> Result<Request, AllocError>
    ensures { IfOk result (λ r. request_of r ≡ creates (key_of key.now) pod.now.value) }
{
    let map = saying(alloc, naming(alloc, key, pod)?, phase(pod))?;
    Ok(Request::Create(Kind::ConfigMap, key.namespace.clone()?, map))
}

/// Returns what has a ConfigMap say the phase of its Pod. It names the version that was seen: who wrote since makes it a conflict.
fn changing(alloc: Global, key: &Key, pod: &Object, map: &Object) -> Result<Request, Failure>
    ensures asked { IfOk result (λ r. guarded map.now.value (Some (changes (key_of key.now) pod.now.value map.now.value)) ≡ Ok (Some (request_of r))) }
    ensures refused { IfErr result (Refuses (guarded map.now.value (Some (changes (key_of key.now) pod.now.value map.now.value)))) }
{
    let Some(version) = map.resource_version() else {
        return Err(Failure::NoVersion);
    };
    let target = namesake(key, Kind::ConfigMap)?;
    let metadata = json!(in alloc; {"resourceVersion": version})?;
    Ok(Request::Patch(target, saying(alloc, metadata, phase(pod))?))
}

/// Returns what is to be asked for a Pod whose ConfigMap is shown.
fn brought_up(
    alloc: Global,
    key: &Key,
    pod: Option<&Object>,
    map: &Object,
) -> Result<Option<Request>, Failure>
    ensures asked { IfOk result (λ next. brought_up (key_of key.now) (option_map (λ o. o.now.value) pod.entry) map.now.value ≡ Ok (option_map request_of next)) }
    ensures refused { IfErr result (Refuses (brought_up (key_of key.now) (option_map (λ o. o.now.value) pod.entry) map.now.value)) }
{
    match pod {
        Some(pod) if is_behind(pod, map) => Ok(Some(changing(alloc, key, pod, map)?)),
        _ => Ok(None),
    }
}

/// Returns what is to be asked for a Pod, by what is shown of it and of its ConfigMap.
fn decided(
    alloc: Global,
    key: &Key,
    pod: Option<&Object>,
    map: Option<&Object>,
) -> Result<Option<Request>, Failure>
    ensures asked { IfOk result (λ next. decided (key_of key.now) (option_map (λ o. o.now.value) pod.entry) (option_map (λ o. o.now.value) map.entry) ≡ Ok (option_map request_of next)) }
    ensures refused { IfErr result (Refuses (decided (key_of key.now) (option_map (λ o. o.now.value) pod.entry) (option_map (λ o. o.now.value) map.entry))) }
{
    match (pod, map) {
        (None, None) => Ok(None),
        (Some(pod), None) if pod.is_being_deleted() => Ok(None),
        (Some(pod), None) => Ok(Some(creating(alloc, key, pod)?)),
        (pod, Some(map)) if is_left(alloc, key, pod, map)? => {
            Ok(Some(deletion(alloc, namesake(key, Kind::ConfigMap)?, map)?))
        }
        (pod, Some(map)) => brought_up(alloc, key, pod, map),
    }
}

/// Returns what is to be asked of the server for a Pod, if something is.
fn next(alloc: Global, key: &Key, shown: &PerKind<Indexed>) -> Result<Option<Request>, Failure>
    ensures asked { IfOk result (λ next. wanted (key_of key.now) shown.now ≡ Ok (option_map request_of next)) }
    ensures refused { IfErr result (Refuses (wanted (key_of key.now) shown.now)) }
{
    let target = namesake(key, Kind::ConfigMap)?;
    decided(
        alloc,
        key,
        shown.pods.get(key),
        shown.config_maps.get(&target),
    )
}

impl Reconciler<Key> for Mirror {
    ghost use Rattle.std.specs.Prelude.{◌≡◌, ◌∷◌, [], true, map};
    ghost use Rattle.spec_api.specs.declared.kinds.Kind.TheVariants as kinds;
    ghost use Rattle.object_keys.specs.Keys.{key_of};
    ghost use Rattle.reconciler.specs.Asked.{AsksUnlessMemoryEnds};
    ghost use Rattle.mirror_example.specs.Mirrored.{wanted};

    ghost owes = { λ shown change keys. map key_of keys ≡ record (change.key) { kind = kinds.Pod } ∷ [] };

    ghost says_acts = { true };

    ghost acts = { λ key shown trace outcome. AsksUnlessMemoryEnds (wanted (key_of key) shown) trace outcome };

    /// A change of a Pod or of a ConfigMap owes the Pod of that name.
    fn keys_of(
        &self,
        alloc: Global,
        change: &Shift,
        _shown: &PerKind<Indexed>,
    ) -> Result<Vec<Key>, AllocError> {
        Ok(vec![in alloc; namesake(&change.key, Kind::Pod)?]?)
    }

    /// Asks what is wanted, and nothing else. What is refused is tried again, by what is shown then.
    fn reconcile<A: Api>(
        &self,
        alloc: Global,
        key: &Key,
        shown: &PerKind<Indexed>,
        api: &mut A,
    ) -> Outcome {
        ask(alloc, api, next(alloc, key, shown))
    }
}

//! What a method, a target and a body ask for.
ghost use Rattle.std.specs.Prelude.{◌≡◌, IfOk, option_map, string_bytes};
ghost use Rattle.std.specs.Result.{result_map_both};
ghost use Rattle.spec_api.specs.ObjectRequests.{create_object};
ghost use Rattle.spec_api.specs.Targets as targets;
ghost use Rattle.spec_api.specs.Targets.{asked, asked_with, asks_with, body_of, collection, delete_options, object_at, query_for, read_as, read_request, selected, status_of};
ghost use Rattle.object_keys.specs.Faults.{refusal_of};
ghost use Rattle.object_keys.specs.Keys.{key_of};
ghost use Rattle.request_parts.specs.Collected.{collection_seen, read_seen};
ghost use Rattle.request_parts.specs.Queried.{query_seen};
ghost use Rattle.request_parts.specs.RoutesSeen.{now, route_seen};
ghost use Rattle.request_decoding.specs.Asked.{Asks, ReadsData, ReadsDelete, asked_seen};

use crate::meaning::Asked;
use lifecycle::DeleteOptions;
use object_keys::{Fault, Key};
use request_parts::Request;
use request_parts::body::{BodyFault, is_too_long, read_body};
use request_parts::check::{check_request, decode};
use request_parts::collections::{Collection, CollectionRead};
use request_parts::query::{Query, read_query};
use request_parts::table::Routes;
use request_parts::targets::Target;
use selector::View;
use serde_json::Value;
use spec_api::kinds::Kind;
use spec_api::methods::Method;
use spec_api::refusals::Part;
use std::alloc::{AllocError, Global};

/// Returns what a method, a target and a body ask. The error is the first refusal: of the path, its namespace, the method, the
/// query, the length of the body, which each method looks at, what the body says; or out of memory.
pub fn read_request(
    alloc: Global,
    routes: &Routes,
    method: Method,
    target: &[u8],
    body: &[u8],
) -> Result<Asked, Fault>
    ensures { Asks (read_request method target.now body.now) result }
{
    let decoded = decode(alloc, target)?;
    let target = decoded.as_str();
    match check_request(routes, method, target) {
        Ok(named) => ask_with(alloc, method, named, target, body),
        Err(fault) => Err(Fault::from(fault)),
    }
}

/// Returns what a method asks of a target that passed the checks, with its query, if the body is not too long.
fn ask_with(
    alloc: Global,
    method: Method,
    named: Target<'_>,
    target: &str,
    body: &[u8],
) -> Result<Asked, Fault>
    ensures { Asks (asked_with method (route_seen named.entry) body.now
        (query_for method (route_seen named.entry) target.now)) result }
{
    match read_query(alloc, method, named, target) {
        Ok(_) if is_too_long(body) => Err(Fault::TooLarge),
        Ok(query) => ask(alloc, method, named, query, body),
        Err(fault) => Err(Fault::from(fault)),
    }
}

/// Returns what a method asks of a target, with a query and a body that is not too long. The error is the first refusal: of the
/// method, of what the body says; or out of memory.
pub fn ask(
    alloc: Global,
    method: Method,
    target: Target<'_>,
    query: Query,
    body: &[u8],
) -> Result<Asked, Fault>
    ensures { Asks (asked method (route_seen target.entry) (query_seen query) body.now) result }
{
    match target {
        Target::Collection(kind, namespace) => {
            ask_collection(alloc, method, kind, namespace, query, body)
        }
        Target::Object(kind, namespace, name) => {
            ask_object(alloc, method, kind, namespace, name, &query, body)
        }
        Target::Status(kind, namespace, name) => {
            ask_status(alloc, method, kind, namespace, name, body)
        }
    }
}

/// Returns what a method asks of the objects of a kind.
fn ask_collection(
    alloc: Global,
    method: Method,
    kind: Kind,
    namespace: Option<&str>,
    query: Query,
    body: &[u8],
) -> Result<Asked, Fault>
    ensures { Asks (asked method (collection kind (option_map now namespace.entry)) (query_seen query) body.now) result }
{
    match method {
        Method::Get => read_collection(alloc, kind, namespace, query.into_collection()),
        Method::Post => create(alloc, kind, namespace, body),
        _ => Err(Fault::MethodNotAllowed),
    }
}

/// Returns what a method asks of an object.
fn ask_object(
    alloc: Global,
    method: Method,
    kind: Kind,
    namespace: &str,
    name: &str,
    query: &Query,
    body: &[u8],
) -> Result<Asked, Fault>
    ensures { Asks (asked method (object_at (record { kind = kind; namespace = namespace.now; name = name.now })) (query_seen query.now) body.now) result }
{
    match method {
        Method::Get => Ok(Asked::Request(Request::Get(key(alloc, kind, namespace, name)?))),
        Method::Put => {
            let (key, value) = key_and_data(alloc, kind, namespace, name, body)?;
            Ok(Asked::Request(Request::Update(key, value)))
        }
        Method::Patch => {
            let (key, value) = key_and_data(alloc, kind, namespace, name, body)?;
            Ok(Asked::Request(Request::Patch(key, value)))
        }
        Method::Delete => {
            let options = delete_options(alloc, query, body)?;
            Ok(Asked::Request(Request::Delete(key(alloc, kind, namespace, name)?, options)))
        }
        Method::Post => Err(Fault::MethodNotAllowed),
    }
}

/// Returns what a method asks of the status of an object. Its query counts for nothing.
fn ask_status(
    alloc: Global,
    method: Method,
    kind: Kind,
    namespace: &str,
    name: &str,
    body: &[u8],
) -> Result<Asked, Fault>
    ensures { (query : targets.Query) → Asks (asked method (status_of (record { kind = kind; namespace = namespace.now; name = name.now })) query body.now) result }
{
    match method {
        Method::Get => Ok(Asked::Request(Request::Get(key(alloc, kind, namespace, name)?))),
        Method::Put => {
            let (key, value) = key_and_data(alloc, kind, namespace, name, body)?;
            Ok(Asked::Request(Request::UpdateStatus(key, value)))
        }
        _ => Err(Fault::MethodNotAllowed),
    }
}

/// Returns the list of what is selected of a collection, or a watch of it.
fn read_as(kind: Kind, namespace: Option<String>, collection: Collection) -> Asked
    ensures { asked_seen result
        ≡ read_as (selected kind (option_map string_bytes namespace) (collection_seen collection)) (read_seen collection.read) }
{
    let view = View {
        kind,
        namespace,
        labels: collection.labels,
        fields: collection.fields,
    };
    match collection.read {
        CollectionRead::List(options) => Asked::List { view, options },
        CollectionRead::Watch(options) => Asked::Watch { view, options },
    }
}

/// Returns the list of a collection, or a watch of it. The error is running out of memory.
fn read_collection(
    alloc: Global,
    kind: Kind,
    namespace: Option<&str>,
    collection: Collection,
) -> Result<Asked, Fault>
    ensures { Asks (Ok (read_as (selected kind (option_map now namespace.entry) (collection_seen collection)) (read_seen collection.read))) result }
{
    let namespace = owned(alloc, namespace)?;
    Ok(read_as(kind, namespace, collection))
}

/// Returns what a POST asks of a collection: an object is created in one namespace, and not in all.
fn create(alloc: Global, kind: Kind, namespace: Option<&str>, body: &[u8]) -> Result<Asked, Fault>
    ensures { (query : targets.Query) → Asks (asked Method.Post (collection kind (option_map now namespace.entry)) query body.now) result }
{
    match namespace {
        None => Err(Fault::MethodNotAllowed),
        Some(namespace) => create_in(alloc, kind, namespace, body),
    }
}

/// Returns the create of an object of this body in a namespace.
fn create_in(alloc: Global, kind: Kind, namespace: &str, body: &[u8]) -> Result<Asked, Fault>
    ensures { Asks (asks_with (create_object kind namespace.now) (body_of body.now)) result }
{
    let value = read(alloc, body)?;
    let namespace = String::from_str(alloc, namespace)?;
    Ok(Asked::Request(Request::Create(kind, namespace, value)))
}

/// Returns the key of an object.
fn key(alloc: Global, kind: Kind, namespace: &str, name: &str) -> Result<Key, AllocError>
    ensures { IfOk result (λ k. key_of k ≡ record { kind = kind; namespace = namespace.now; name = name.now }) }
{
    Ok(Key {
        kind,
        namespace: String::from_str(alloc, namespace)?,
        name: String::from_str(alloc, name)?,
    })
}

/// Returns the key of an object, and the data of a body that is asked to take its place.
fn key_and_data(
    alloc: Global,
    kind: Kind,
    namespace: &str,
    name: &str,
    body: &[u8],
) -> Result<(Key, Value), Fault>
    ensures key { IfOk result (λ n. key_of n.0 ≡ record { kind = kind; namespace = namespace.now; name = name.now }) }
    ensures data { ReadsData (body_of body.now) (result_map_both (λ n. n.1) (λ fault. fault) result) }
{
    let value = read(alloc, body)?;
    Ok((key(alloc, kind, namespace, name)?, value))
}

/// Returns a text of one's own, where there is one.
fn owned(alloc: Global, text: Option<&str>) -> Result<Option<String>, AllocError>
    ensures { IfOk result (λ owned. option_map string_bytes owned ≡ option_map now text.entry) }
{
    match text {
        None => Ok(None),
        Some(text) => Ok(Some(String::from_str(alloc, text)?)),
    }
}

/// Returns the data of a body.
fn read(alloc: Global, body: &[u8]) -> Result<Value, Fault>
    ensures { ReadsData (body_of body.now) result }
{
    match read_body(alloc, body) {
        Ok(value) => Ok(value),
        Err(BodyFault::NotJson) => Err(Fault::BadRequest(Part::Body)),
        Err(BodyFault::NoMemory) => Err(Fault::NoMemory),
    }
}

/// Returns the options of a delete: what its body says or, without one, its query.
fn delete_options(alloc: Global, query: &Query, body: &[u8]) -> Result<DeleteOptions, Fault>
    ensures { ReadsDelete (delete_options (query_seen query.now) body.now) result }
{
    if body.is_empty() {
        return DeleteOptions::from_query(query.policy);
    }
    let value = read(alloc, body)?;
    DeleteOptions::from_value(alloc, &value)
}

//! What a request names.
ghost use Rattle.std.specs.Prelude.{◌≡◌, option_map};
ghost use Rattle.serde_json.specs.View.{view};
ghost use Rattle.spec_api.specs.Metadata.{metadata, metadata_text};
ghost use Rattle.request_parts.specs.Requests.{request_of};
ghost use Rattle.api_notes.specs.Named.{name_named, namespace_named, new_name};

use request_parts::Request;
use serde_json::Value;

/// Returns a member of an object's metadata.
fn metadata_member<'a>(value: &'a Value, name: &str) -> Option<&'a Value>
    ensures { option_map (λ v. view v.now) result ≡ metadata name.now (view value.now) }
{
    value.get("metadata")?.get(name)
}

/// Returns a text of an object's metadata.
fn metadata_text<'a>(value: &'a Value, name: &str) -> Option<&'a str>
    ensures { option_map (λ s. s.now) result ≡ metadata_text name.now (view value.now) }
{
    metadata_member(value, name)?.as_str()
}

/// Returns the name of an object that is to be made, or what its name is to be made of (Kubernetes API Conventions, Metadata, `generateName`).
fn new_name(value: &Value) -> &str
    ensures { result.now ≡ new_name (view value.now) }
{
    match metadata_text(value, "name") {
        Some(name) => name,
        None => match metadata_text(value, "generateName") {
            Some(beginning) => beginning,
            None => "",
        },
    }
}

/// Returns the namespace that a request names; an empty text where it names none.
pub(crate) fn namespace_of(request: &Request) -> &str
    ensures { result.now ≡ namespace_named (request_of request.now) }
{
    match request {
        Request::List(view) => match &view.namespace {
            Some(namespace) => namespace.as_str(),
            None => "",
        },
        Request::Create(_, namespace, _) => namespace.as_str(),
        Request::Get(key)
        | Request::Update(key, _)
        | Request::UpdateStatus(key, _)
        | Request::Patch(key, _)
        | Request::Delete(key, _) => key.namespace.as_str(),
    }
}

/// Returns the name of the object that a request names, of a create as `new_name` says; an empty text where it names none.
pub(crate) fn name_of(request: &Request) -> &str
    ensures { result.now ≡ name_named (request_of request.now) }
{
    match request {
        Request::List(_) => "",
        Request::Create(_, _, value) => new_name(value),
        Request::Get(key)
        | Request::Update(key, _)
        | Request::UpdateStatus(key, _)
        | Request::Patch(key, _)
        | Request::Delete(key, _) => key.name.as_str(),
    }
}

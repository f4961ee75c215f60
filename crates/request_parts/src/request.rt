//! Requests of objects, by their verbs.
use lifecycle::DeleteOptions;
use object_keys::Key;
use selector::View;
use serde_json::Value;
use spec_api::kinds::Kind;

/// A request, by its verb (Kubernetes API Concepts, API verbs). A body is JSON that was not yet read as an object.
#[derive(Drop)]
pub enum Request {
    /// The object under a key.
    Get(Key),
    /// The objects of a view, as a list that is answered at once; connections ask for lists page by page (`server::Server::page`).
    List(View),
    /// A new object of a kind in a namespace.
    Create(Kind, String, Value),
    /// An object in the place of the one under a key.
    Update(Key, Value),
    /// A status for the object under a key.
    UpdateStatus(Key, Value),
    /// A merge patch of the object under a key.
    Patch(Key, Value),
    /// The object under a key removed, or being deleted from then on, by these options.
    Delete(Key, DeleteOptions),
}

impl Request {
    ghost use Rattle.std.specs.Prelude.{◌≡◌};
    ghost use Rattle.request_parts.specs.Requests.{kind_named, request_of};

    /// Returns the kind of the objects that the request names. It takes no memory.
    pub fn kind(&self) -> Kind
        ensures { result ≡ kind_named (request_of self.now) }
    {
        match self {
            Request::List(view) => view.kind,
            Request::Create(kind, _, _) => *kind,
            Request::Get(key)
            | Request::Update(key, _)
            | Request::UpdateStatus(key, _)
            | Request::Patch(key, _)
            | Request::Delete(key, _) => key.kind,
        }
    }
}

//! What is answered.
ghost use Rattle.std.specs.Prelude.{◌≡◌, List, ℕ};
ghost use Rattle.spec_api.specs.Verbs.{accept_at};
ghost use Rattle.verb_parts.specs.Serves.{Serves};
ghost use Rattle.request_parts.specs.Requests.{request_of};

use crate::read::{get, list};
use meta::Write;
use metadata_values::moments::Moment;
use object_keys::Fault;
use reply::Reply;
use request_parts::Request;
use std::alloc::Global;
use store::Store;
use verb_create::create::create;
use verb_delete::delete::delete;
use verb_update::patch::patch;
use verb_update::update::update;
use verb_update::update_status;

/// Returns the answer to a request over a store at a moment, with what it writes, or the refusal. It changes nothing itself:
/// the write is the caller's to apply. `Fault::NoMemory` says that memory was wanted and refused.
pub fn accept(
    alloc: Global,
    store: &Store,
    request: Request,
    moment: Moment,
) -> Result<(Reply, Option<Write>), Fault>
    ensures { Serves (accept_at (request_of request) store.now.members store.now.revision moment) result }
{
    match request {
        Request::Get(key) => get(alloc, store, &key),
        Request::List(view) => list(alloc, store, &view),
        Request::Create(kind, namespace, body) => {
            create(alloc, store, kind, namespace.as_str(), body, moment)
        }
        Request::Update(key, body) => update(alloc, store, key, body),
        Request::UpdateStatus(key, body) => update_status(alloc, store, key, body),
        Request::Patch(key, body) => patch(alloc, store, key, body),
        Request::Delete(key, options) => delete(alloc, store, key, &options, moment),
    }
}

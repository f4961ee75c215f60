//! The steps of a server that a pass holds.
ghost use Rattle.std.specs.Prelude.{◌≡◌, Ok, Err, OnOk, OnErr, IfErr};
ghost use Rattle.spec_api.specs.Verbs.{accept_at};
ghost use Rattle.spec_api.specs.Verbs as outcomes;
ghost use Rattle.server.specs.Replies.{Finds, Lists};
ghost use Rattle.object_keys.specs.Faults.{refusal_of};
ghost use Rattle.request_parts.specs.Collected.{list_seen};
ghost use Rattle.request_parts.specs.Requests.{request_of};
ghost use Rattle.selector.specs.Views.{view_of};
ghost use Rattle.spec_server.specs.Servers.{after_writing, compact_by, list_served};
ghost use Rattle.desk.specs.Told.{Answers};

use crate::served::ServedReply;
use baton::Held;
use metadata_values::moments::Moment;
use object_keys::Fault;
use reply::Reply;
use request_parts::Request;
use request_parts::list_options::ListOptions;
use selector::View;
use server::{ListPage, Server};
use std::alloc::Global;

/// Answers a request at a moment and applies what it writes.
pub(crate) fn serve(
    alloc: Global,
    held: &mut Held<Server>,
    request: Request,
    moment: Moment,
) -> Result<ServedReply, Fault>
    ensures reply { Answers (accept_at (request_of request) held.old.snapshot.members held.old.snapshot.revision moment) result }
    ensures ok { OnOk result (held.new
        ≡ after_writing held.old (outcomes.write_of (accept_at (request_of request) held.old.snapshot.members held.old.snapshot.revision moment))) }
    ensures err { OnErr result (held.new ≡ held.old) }
{
    serve_by(alloc, held.get_mut(), request, moment)
}

/// Answers a request by a server, and sees by its revision whether something was written.
fn serve_by(
    alloc: Global,
    server: &mut Server,
    request: Request,
    moment: Moment,
) -> Result<ServedReply, Fault>
    ensures reply { Answers (accept_at (request_of request) server.old.snapshot.members server.old.snapshot.revision moment) result }
    ensures ok { OnOk result (server.new
        ≡ after_writing server.old (outcomes.write_of (accept_at (request_of request) server.old.snapshot.members server.old.snapshot.revision moment))) }
    ensures err { OnErr result (server.new ≡ server.old) }
{
    let before = server.revision();
    match server.serve(alloc, request, moment) {
        Ok(reply) => {
            let wrote = server.revision() != before;
            Ok(ServedReply { reply, wrote })
        }
        Err(fault) => Err(fault),
    }
}

/// Raises the floor of each kind to a revision.
pub(crate) fn compact(held: &mut Held<Server>, revision: u64) -> Result<(), Fault>
    ensures ok { OnOk result (compact_by held.old revision ≡ Ok held.new) }
    ensures refused { IfErr result (λ e. compact_by held.old revision ≡ Err (refusal_of e)) }
    ensures err { OnErr result (held.new ≡ held.old) }
{
    held.get_mut().compact(revision)
}

/// Returns the page of a list that is asked.
pub(crate) fn list(
    alloc: Global,
    server: &Server,
    view: &View,
    options: &ListOptions,
) -> Result<Reply, Fault>
    ensures { Lists (list_served server.now (view_of view.now) (list_seen options.now)) result }
{
    let after = options.after.as_ref();
    server.list(alloc, view, options.at, options.limit, after)
}

/// Finds the page of a list that is asked.
pub(crate) fn page(
    alloc: Global,
    server: &Server,
    view: &View,
    options: &ListOptions,
) -> Result<ListPage, Fault>
    ensures { Finds (list_served server.now (view_of view.now) (list_seen options.now)) result }
{
    let after = options.after.as_ref();
    server.page(alloc, view, options.at, options.limit, after)
}

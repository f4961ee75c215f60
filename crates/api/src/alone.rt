//! What a server answers that one thread owns.
ghost use Rattle.request_parts.specs.Collected.{list_seen};
ghost use Rattle.revisions.specs.Watches.{watched_of};
ghost use Rattle.selector.specs.Views.{view_of};
ghost use Rattle.api.specs.Alone.{CallsAlone, ListsAlone, WatchesAlone, BeginsAlone};
ghost use Rattle.api.specs.Told.{Tells, TellsText};
ghost use Rattle.request_parts.specs.Requests.{request_of};
ghost use Rattle.http_watch.specs.Given.{Gives, GivesBegun};

use http_watch::Begun;
use metadata_values::moments::Moment;
use object_keys::Fault;
use reply::Reply;
use request_parts::Request;
use request_parts::list_options::ListOptions;
use revisions::WatchedEvents;
use selector::View;
use server::{ListText, Server, opened};
use std::alloc::Global;

/// Answers a request at a moment, after which what it writes is written.
pub(crate) fn call(
    alloc: Global,
    server: &mut Server,
    request: Request,
    moment: Moment,
) -> Result<Reply, Fault>
    ensures { Tells (λ o. CallsAlone server.old (request_of request) moment o server.new) result }
{
    match server.serve(alloc, request, moment) {
        Ok(reply) => Ok(reply),
        Err(fault) => Err(fault),
    }
}

/// Answers a list of a view.
pub(crate) fn list(
    alloc: Global,
    server: &Server,
    view: &View,
    options: &ListOptions,
) -> Result<Reply, Fault>
    ensures { Tells (λ o. ListsAlone server.now (view_of view.now) (list_seen options.now) o server.now) result }
{
    let after = options.after.as_ref();
    match server.list(alloc, view, options.at, options.limit, after) {
        Ok(reply) => Ok(reply),
        Err(fault) => Err(fault),
    }
}

/// Answers a list of a view with its text, which is still to be made.
pub(crate) fn page(
    alloc: Global,
    server: &Server,
    view: &View,
    options: &ListOptions,
) -> Result<ListText, Fault>
    ensures { TellsText (λ o. ListsAlone server.now (view_of view.now) (list_seen options.now) o server.now) result }
{
    let after = options.after.as_ref();
    let page = server.page(alloc, view, options.at, options.limit, after);
    opened(alloc, page)
}

/// Gives the first changes of a view after a revision, at most so many.
pub(crate) fn watch_from(
    alloc: Global,
    server: &Server,
    view: &View,
    after: u64,
    most: usize,
) -> Result<WatchedEvents, Fault>
    ensures { Gives watched_of (λ w. WatchesAlone server.now (view_of view.now) after most w server.now) result }
{
    match server.watch_from(alloc, view, after, most) {
        Ok(watched) => Ok(watched),
        Err(fault) => Err(fault),
    }
}

/// Gives what is there of a view, for a watch that begins with it, not older than a revision, if one is named. The errors are a
/// revision above the present one and out of memory.
pub fn initial(
    alloc: Global,
    server: &Server,
    view: &View,
    least: Option<u64>,
) -> Result<Begun, Fault>
    ensures { GivesBegun (λ l. BeginsAlone server.now (view_of view.now) least l server.now) result }
{
    match server.initial(alloc, view, least) {
        Ok(initial) => Ok(Begun {
            objects: initial.objects,
            revision: initial.revision,
        }),
        Err(fault) => Err(fault),
    }
}

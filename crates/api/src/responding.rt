//! What is asked, done at a server.
ghost use Rattle.std.specs.Prelude.{Ok, Some};
ghost use Rattle.api.specs.Askable.{MayBeAsked, MayBeSaid};
ghost use Rattle.api.specs.Responding.{IsMade, Responds};
ghost use Rattle.request_decoding.specs.Asked.{asked_seen};
ghost use Rattle.spec_api.specs.Targets as targets;
ghost use Rattle.http_request_reader.specs.Receiving.{said};
ghost use Rattle.request_parts.specs.Collected.{list_seen, watch_seen};
ghost use Rattle.selector.specs.Views.{view_of};
ghost use Rattle.request_parts.specs.Requests.{request_of};

use crate::list_replies::ListReply;
use crate::replying::{answer_text, refusal_text};
use crate::response::{OpenWatch, Response};
use crate::site::Site;
use http_request_reader::Received;
use http_watch::open;
use metadata_values::moments::Moment;
use request_decoding::Asked;
use request_parts::Request;
use request_parts::list_options::ListOptions;
use request_parts::watch_options::WatchOptions;
use selector::View;
use std::alloc::Global;

/// Does a request at a server, and returns its reply.
fn respond_to_request<S: Site>(
    alloc: Global,
    request: Request,
    site: &mut S,
    moment: Moment,
) -> Response
    requires asked { S.MayAsk (request_of request) }
    ensures responds { Responds S.Calls S.Lists S.Begins S.Watches moment site.old site.new
        (Some (Ok (targets.request (request_of request)))) result }
    ensures made { IsMade result }
{
    let answer = site.call(alloc, request, moment);
    Response::Reply(answer_text(alloc, answer))
}

/// Lists a view, and returns the reply, whole.
fn respond_to_whole_list<S: Site>(
    alloc: Global,
    view: &View,
    options: &ListOptions,
    site: &mut S,
    moment: Moment,
) -> Response
    ensures responds { Responds S.Calls S.Lists S.Begins S.Watches moment site.old site.new
        (Some (Ok (targets.list (view_of view.now) (list_seen options.now)))) result }
    ensures made { IsMade result }
{
    let _ = moment;
    let answer = site.list(alloc, view, options);
    Response::Reply(answer_text(alloc, answer))
}

/// Lists a view, and returns the reply, which is made as it is written.
fn respond_to_list<S: Site>(
    alloc: Global,
    view: &View,
    options: &ListOptions,
    site: &mut S,
    moment: Moment,
) -> Response
    ensures { Responds S.Calls S.Lists S.Begins S.Watches moment site.old site.new
        (Some (Ok (targets.list (view_of view.now) (list_seen options.now)))) result }
{
    let _ = moment;
    match site.page(alloc, view, options) {
        Ok(text) => Response::List(ListReply::new(text)),
        Err(refused) => Response::Reply(refusal_text(alloc, &refused)),
    }
}

/// Opens a watch of a view, or returns the reply that refuses it.
fn respond_to_watch<S: Site>(
    alloc: Global,
    view: View,
    options: WatchOptions,
    site: &mut S,
    moment: Moment,
) -> Response
    ensures responds { Responds S.Calls S.Lists S.Begins S.Watches moment site.old site.new
        (Some (Ok (targets.watch (view_of view) (watch_seen options)))) result }
    ensures made { IsMade result }
{
    let _ = moment;
    match open(alloc, site, &view, options.bookmarks, options.start) {
        Ok(opened) => Response::Watch(OpenWatch {
            view,
            bookmarks: options.bookmarks,
            opened,
        }),
        Err(fault) => Response::Reply(refusal_text(alloc, &fault)),
    }
}

/// Does what is asked at a server, and returns what is to be written. A reply to what was done never lacks memory: that of a list is made as it
/// is written, and waits for memory.
pub fn respond_to<S: Site>(alloc: Global, asked: Asked, site: &mut S, moment: Moment) -> Response
    requires asked { MayBeAsked S.MayAsk (asked_seen asked) }
    ensures { Responds S.Calls S.Lists S.Begins S.Watches moment site.old site.new
        (Some (Ok (asked_seen asked))) result }
{
    match asked {
        Asked::Request(request) => respond_to_request(alloc, request, site, moment),
        Asked::List { view, options } => respond_to_list(alloc, &view, &options, site, moment),
        Asked::Watch { view, options } => respond_to_watch(alloc, view, options, site, moment),
    }
}

/// Does what is asked at a server, and returns what is to be written, which is made.
fn respond_whole<S: Site>(alloc: Global, asked: Asked, site: &mut S, moment: Moment) -> Response
    requires asked { MayBeAsked S.MayAsk (asked_seen asked) }
    ensures responds { Responds S.Calls S.Lists S.Begins S.Watches moment site.old site.new
        (Some (Ok (asked_seen asked))) result }
    ensures made { IsMade result }
{
    match asked {
        Asked::Request(request) => respond_to_request(alloc, request, site, moment),
        Asked::List { view, options } => {
            respond_to_whole_list(alloc, &view, &options, site, moment)
        }
        Asked::Watch { view, options } => respond_to_watch(alloc, view, options, site, moment),
    }
}

/// Does what was received at a server, and returns what is to be written, which is made. Where nothing was asked nothing is done, nor where
/// what was asked is refused.
pub fn respond<S: Site>(alloc: Global, received: Received, site: &mut S, moment: Moment) -> Response
    requires asked { MayBeSaid S.MayAsk (said received) }
    ensures responds { Responds S.Calls S.Lists S.Begins S.Watches moment site.old site.new (said received) result }
    ensures made { IsMade result }
{
    match received {
        Received::Asked(asked) => respond_whole(alloc, asked, site, moment),
        Received::Refused(fault) => Response::Reply(refusal_text(alloc, &fault)),
        Received::Ended => Response::Nothing,
    }
}

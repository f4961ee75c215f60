//! Requests that are whole, answered.
ghost use Rattle.api.specs.declared.response.Response.TheVariants as response;
ghost use Rattle.api.specs.Askable.{CanBeAsked};
ghost use Rattle.request_decoding.specs.Asked.{asked_seen};
ghost use Rattle.http_connection.specs.Arriving.{MayStand};
ghost use Rattle.http_connection.specs.Phases.{Answers, IsToBeWritten, StandsAnswered};
ghost use Rattle.http_connection.specs.declared.phase.ConnectionPhase.TheVariants as phase;

use crate::listing::Listing;
use crate::phase::ConnectionPhase;
use crate::replying::Replying;
use crate::watching::Watching;
use api::{ListReply, OpenWatch, Response, Served, Site, Text, respond_to};
use metadata_values::moments::Moment;
use request_decoding::Asked;
use std::alloc::Global;

/// Returns where a connection stands that is to be written a reply.
fn replied(text: Text) -> ConnectionPhase
    ensures { IsToBeWritten (response.Reply text) result }
{
    ConnectionPhase::Replying(Replying {
        text,
        taken: 0,
        served: Served::Asked,
    })
}

/// Returns where a connection stands that is to be written a list.
fn listed(alloc: Global, reply: ListReply) -> ConnectionPhase
    ensures { IsToBeWritten (response.List reply) result }
{
    ConnectionPhase::Listing(Listing {
        out: Vec::new(alloc),
        taken: 0,
        rest: reply,
        pieces: 0,
        is_paused: false,
    })
}

/// Returns where a connection stands whose watch has opened.
fn opened(alloc: Global, watch: OpenWatch) -> ConnectionPhase
    ensures { IsToBeWritten (response.Watch watch) result }
{
    ConnectionPhase::Watching(Watching {
        view: watch.view,
        bookmarks: watch.bookmarks,
        at: Some(watch.opened.at),
        at_once: watch.opened.text.len(),
        out: watch.opened.text,
        taken: 0,
        rest: watch.opened.rest,
        pieces: 0,
        later: Vec::new(alloc),
        is_paused: false,
    })
}

/// Returns where a connection stands whose request is whole, once this is the response to it. Nothing was written yet.
pub fn answered(alloc: Global, response: Response) -> ConnectionPhase
    ensures { IsToBeWritten response result }
{
    match response {
        Response::Nothing => ConnectionPhase::Closing(Served::NotAsked),
        Response::Reply(text) => replied(text),
        Response::List(reply) => listed(alloc, reply),
        Response::Watch(watch) => opened(alloc, watch),
    }
}

/// Does a request that is whole at a server, and returns where its connection then stands. Nothing was written yet.
pub fn answer<S: Site>(alloc: Global, asked: Asked, site: &mut S, moment: Moment) -> ConnectionPhase
    requires asked { CanBeAsked (asked_seen asked) }
    ensures answers { Answers S.Calls S.Lists S.Begins S.Watches moment site.old site.new (asked_seen asked) result }
    ensures stands { StandsAnswered S.Calls S.Lists S.Begins S.Watches moment site.old site.new (phase.Asked asked) result }
    ensures led { MayStand result }
{
    answered(alloc, respond_to(alloc, asked, site, moment))
}

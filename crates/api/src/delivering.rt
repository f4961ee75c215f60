//! Responses as they are written: a reply at once, a watch up to its end.
ghost use Rattle.std.specs.Prelude.{◌≡◌};
ghost use Rattle.api.specs.Delivering.{after_watch, Delivers, GoesOn};
ghost use Rattle.api.specs.Replying.{Sends};
ghost use Rattle.api.specs.Responding.{IsMade};

use crate::fault::ServeFault;
use crate::replying::send_reply;
use crate::response::{OpenWatch, Response};
use chunked::Watched;
use http_watch::{Cut, LookPace, WatchSource, go_on};
use std::alloc::Global;
use std::io::Write;

/// Returns how a connection is left whose watch is left so.
fn after_watch(followed: Result<(), Cut>) -> Result<(), ServeFault>
    ensures { result ≡ after_watch followed }
{
    match followed {
        Ok(()) => Ok(()),
        Err(Cut::Device) => Err(ServeFault::Write),
        Err(Cut::NoMemory) => Err(ServeFault::NoMemory),
    }
}

/// Writes what a watch opened with, and goes on with it up to its end.
fn deliver_watch<S: WatchSource, P: LookPace, W: Write + Drop>(
    alloc: Global,
    watch: OpenWatch,
    site: &mut S,
    pace: &mut P,
    writer: &mut Watched<W>,
) -> Result<(), ServeFault>
    ensures { GoesOn S.Watches W.contents site.old site.new writer.old writer.new watch result }
{
    let OpenWatch {
        view,
        bookmarks,
        opened,
    } = watch;
    after_watch(go_on(alloc, site, &view, bookmarks, opened, pace, writer))
}

/// Writes a response: a reply at once, a watch up to its end. It is no list that is made as it is written, which would lack memory within.
pub(crate) fn deliver<S: WatchSource, P: LookPace, W: Write + Drop>(
    alloc: Global,
    response: Response,
    site: &mut S,
    pace: &mut P,
    writer: &mut Watched<W>,
) -> Result<(), ServeFault>
    requires { IsMade response }
    ensures { Delivers S.Watches W.contents site.old site.new writer.old writer.new response result }
{
    match response {
        Response::Nothing => Ok(()),
        Response::Reply(text) => send_reply(alloc, &text, writer),
        Response::List(_) => Err(ServeFault::NoMemory),
        Response::Watch(watch) => deliver_watch(alloc, watch, site, pace, writer),
    }
}

//! One request of a connection, served.
ghost use Rattle.std.specs.Prelude.{◌≡◌};
ghost use Rattle.api.specs.Serving.{AsksWhole, Reads, ServesOne, has_reader_failed, how_left};
ghost use Rattle.chunked.specs.Devices.{device_of, has_failed};
ghost use Rattle.spec_api.specs.ObjectRequests.{Request};

use crate::delivering::deliver;
use crate::fault::ServeFault;
use crate::replying::send;
use crate::responding::respond;
use crate::served::{Served, served_by};
use crate::site::Site;
use chunked::Watched;
use http_request_head::ReadFault;
use http_request_reader::receive;
use http_response::out_of_memory;
use http_watch::LookPace;
use metadata_values::moments::Moment;
use request_parts::table::Routes;
use std::alloc::Global;
use std::io::{Read, Write};

/// Serves one request of a connection: reads it, asks a server at a moment, and writes the reply. Half a request is neither done
/// nor replied to. A reply to what was done never lacks memory; what is not done because memory ran out is replied to with that,
/// and so is a refusal for whose reply there is none. The server is one that may be asked any request. Returns whether the server was asked: only then is it sure that the peer
/// sends no more of its request.
///
/// The error says why the connection is left: its reader failed, and nothing was done or written; its writer failed, and a
/// beginning of the reply was written to what was done; or out of memory within a watch, whose end is then missing.
pub fn serve_one<S: Site, P: LookPace, R: Read + Drop, W: Write + Drop>(
    alloc: Global,
    routes: &Routes,
    reader: &mut Watched<R>,
    writer: &mut Watched<W>,
    site: &mut S,
    moment: Moment,
    pace: &mut P,
) -> Result<Served, ServeFault>
    requires any { (q : Request) → S.MayAsk q }
    ensures serves { ServesOne S.Calls S.Lists S.Begins S.Watches W.contents moment site.old site.new writer.old writer.new
        (R.remaining (device_of reader.old)) (how_left result) }
    ensures asked { AsksWhole (R.remaining (device_of reader.old)) result }
    ensures reads { Reads (R.remaining (device_of reader.old)) (R.remaining (device_of reader.new)) (how_left result) }
    ensures failed { has_failed reader.new ≡ has_reader_failed (how_left result) }
{
    match receive(alloc, routes, reader) {
        Ok(received) => {
            let served = served_by(&received);
            let response = respond(alloc, received, site, moment);
            match deliver(alloc, response, site, pace, writer) {
                Ok(()) => Ok(served),
                Err(fault) => Err(fault),
            }
        }
        Err(ReadFault::Device) => Err(ServeFault::Read),
        Err(ReadFault::Want) => match send(out_of_memory(), writer) {
            Ok(()) => Ok(Served::NotAsked),
            Err(fault) => Err(fault),
        },
    }
}

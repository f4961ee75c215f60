//! Reads and writes that wait for nobody.
ghost use Rattle.std.specs.Prelude.{ℕ, List};
ghost use Rattle.http_connection.specs.Arriving.{IsArriving, MayStand, ReadsOn};
ghost use Rattle.http_connection.specs.Phases.{Turns};
ghost use Rattle.http_connection.specs.Stopping.{device_in, has_stopped};

use crate::arriving::Arriving;
use crate::list_sending::list_on;
use crate::noted::Noted;
use crate::phase::ConnectionPhase;
use crate::receiving::arrived;
use crate::sending::{reply_on, watch_on};
use api::{Served, Site};
use request_parts::table::Routes;
use std::alloc::Global;
use std::io::{ErrorKind, Read, Write};

/// The greatest length of a piece.
const PIECE: usize = 4096;

/// Reads on until the request is whole, or nothing more is there now.
fn read_on<R: Read + Drop>(
    alloc: Global,
    routes: &Routes,
    arriving: Arriving,
    reader: &mut Noted<R>,
) -> ConnectionPhase
    ensures { (read : List ℕ) → IsArriving arriving read
        → ReadsOn (has_stopped reader.new) (R.remaining (device_in reader.old)) (R.remaining (device_in reader.new)) read result }
{
    let mut arriving = arriving;
    let mut piece = [0u8; PIECE];
    for _ in 0..u64::MAX {
        match reader.read(&mut piece) {
            Ok(0) => return ConnectionPhase::Closing(Served::NotAsked),
            Ok(n) => match arrived(alloc, routes, arriving, &piece[..n]) {
                ConnectionPhase::Reading(more) => arriving = more,
                other => return other,
            },
            Err(error) => {
                if reader.has_stopped() {
                    return ConnectionPhase::Closing(Served::NotAsked);
                }
                if error.kind() != ErrorKind::Interrupted {
                    return ConnectionPhase::Reading(arriving);
                }
            }
        }
    }
    ConnectionPhase::Reading(arriving)
}

/// Reads and writes as far as that goes now, and returns where the connection then stands: its request is read until it is whole, its reply
/// its list or its watch is written. A request that is whole waits to be answered, and a reply that was begun is the one that is written on. It is
/// closed only where half a request was read and its peer sends no more, its peer takes no more, or what is to be written is written to its end; a
/// watch also where there is no memory, or no room, for what it opened with.
///
/// The server that answers is named by the type alone.
pub fn turn<S: Site, R: Read + Drop, W: Write + Drop>(
    alloc: Global,
    routes: &Routes,
    phase: ConnectionPhase,
    reader: &mut Noted<R>,
    writer: &mut Noted<W>,
) -> ConnectionPhase
    ensures turns { Turns S.Calls S.Lists S.Begins S.Watches (has_stopped reader.new) (has_stopped writer.new)
        (R.remaining (device_in reader.old)) (R.remaining (device_in reader.new))
        (W.contents (device_in writer.old)) (W.contents (device_in writer.new)) phase result }
    ensures led { MayStand phase → MayStand result }
{
    match phase {
        ConnectionPhase::Reading(arriving) => match read_on(alloc, routes, arriving, reader) {
            ConnectionPhase::Replying(refusal) => reply_on(alloc, refusal, writer),
            other => other,
        },
        ConnectionPhase::Replying(replying) => reply_on(alloc, replying, writer),
        ConnectionPhase::Listing(listing) => list_on(alloc, listing, writer),
        ConnectionPhase::Watching(watching) => watch_on(alloc, watching, writer),
        ConnectionPhase::Asked(asked) => ConnectionPhase::Asked(asked),
        ConnectionPhase::Answering => ConnectionPhase::Answering,
        ConnectionPhase::Closing(served) => ConnectionPhase::Closing(served),
    }
}

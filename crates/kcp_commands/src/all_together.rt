//! `kcp all`: a server with its controllers, asked over HTTP and by the lines of standard input.
ghost use Rattle.std.specs.Prelude.{◌≡◌, ◌≤◌, ◌+◌, All, vec_len};
ghost use Rattle.desk.specs.Desks.{IsNewAt};

use crate::ground::Ground;
use crate::own_desk::OwnDesk;
use crate::parts::{Answering, Controllers, Own, run_controllers};
use chunked::Watched;
use desk::{Desk, Readable, StorePass};
use http_event_loop::{ListenFault, LoopPlace, Loops, Turns, listen, not_listening};
use kcp_lines::{RelayFault, relay};
use kcp_loopback::Reach;
use kcp_options::{AllOptions, MOST_THREADS, MOST_WORKERS};
use manager::{FOLLOWERS, Signals};
use std::alloc::{AllocError, Global};
use std::io::{BufRead, Write};
use std::marker::Brand;
use std::net::{Net, TcpListener, TcpStream};
use std::sync::ledger::{Blank, Ledger};
use std::sync::{Mutex, Wait};
use std::thread::Threads;
use std::time::Clock;
use std::{io, thread};
use thiserror::Error;

/// Why a server with its controllers ends before its lines do.
#[derive(Debug, Clone, Copy, Error)]
pub enum AllFault {
    /// It could not serve, or out of memory.
    #[error("{0}")]
    Serve(ListenFault),
    /// A line was not answered.
    #[error("{0}")]
    Relay(RelayFault),
}

/// Returns the fault of an error of the system before anything is served.
fn not_served(error: io::Error) -> AllFault {
    AllFault::Serve(not_listening(&error))
}

/// Returns the fault of running out of memory.
fn no_memory(_: AllocError) -> AllFault {
    AllFault::Serve(ListenFault::NoMemory)
}

/// Answers the lines over connections, tells all threads to stop once they end, and returns whether anything was read.
fn answer_lines<R, I, W>(
    own: &OwnDesk<'_, R>,
    reader: &mut I,
    writer: &mut W,
) -> Result<bool, RelayFault>
where
    R: Net<Listener = TcpListener, Stream = TcpStream> + Eprint + Wait + Clock,
    I: BufRead,
    W: Write,
{
    let outcome = relay(
        own.alloc,
        &mut own.connector(),
        &mut Watched::new(reader),
        &mut Watched::new(writer),
    );
    own.signals.stop_all();
    own.loops.stop();
    outcome
}

/// Returns whether anything was read, or why all threads have ended, where it is a fault.
fn outcome_of(
    served: Result<(), ListenFault>,
    worked: Result<(), AllocError>,
    relayed: Result<bool, RelayFault>,
) -> Result<bool, AllFault> {
    served.map_err(AllFault::Serve)?;
    worked.map_err(no_memory)?;
    relayed.map_err(AllFault::Relay)
}

/// Runs all threads: the loops that answer connections, the controllers, and this one, which answers the lines. Where the loops or the controllers
/// end with a fault all are told to stop; this one sees it when it asks for a line.
fn run_threads<'a, R, L, I, W>(
    own: &OwnDesk<'a, R>,
    answering: Answering<'a, R, L>,
    controllers: Controllers<'a, R, Own<'a, R>>,
    reader: &mut I,
    writer: &mut W,
) -> Result<bool, AllFault>
where
    R: Net<Listener = TcpListener, Stream = TcpStream> + Eprint + Threads + Wait + Clock + Sync,
    L: Ledger + Send + Sync,
    I: BufRead,
    W: Write,
{
    let (served, (worked, relayed)) = thread::join(
        own.rt,
        || answering.run(),
        || {
            thread::join(
                own.rt,
                || run_controllers(controllers),
                || answer_lines(own, reader, writer),
            )
        },
    );
    outcome_of(served, worked, relayed)
}

/// Returns the controllers beside what answers connections, if that was made.
fn beside<C: Drop, A: Drop>(controllers: C, answering: io::Result<A>) -> Result<(C, A), AllFault> {
    match answering {
        Ok(answering) => Ok((controllers, answering)),
        Err(error) => Err(not_served(error)),
    }
}

/// Makes a loop for each place, and of the other passes the controllers, and runs all threads.
fn run_over<'a, R, L, I, W>(
    own: &OwnDesk<'a, R>,
    turns: &'a Mutex<Turns<L>>,
    passes: Vec<StorePass>,
    places: Vec<LoopPlace>,
    listener: TcpListener,
    reader: &mut I,
    writer: &mut W,
) -> Result<bool, AllFault>
where
    R: Net<Listener = TcpListener, Stream = TcpStream> + Eprint + Threads + Wait + Clock + Sync,
    L: Ledger + Send + Sync,
    I: BufRead,
    W: Write,
    requires new { All (IsNewAt own.now.desk.now) passes.items }
    requires enough { vec_len places + 4 ≤ vec_len passes }
{
    let workers = passes.len().saturating_sub(places.len() + FOLLOWERS);
    let mut passes = passes;
    let Ok(controllers) = own.controllers(&mut passes, workers) else {
        return Err(AllFault::Serve(ListenFault::NoMemory));
    };
    let answering = own.answering(turns, passes, places, listener);
    let (controllers, answering) = beside(controllers, answering)?;
    run_threads(own, answering, controllers, reader, writer)
}

/// Listens on the port of the options, and runs all threads at a desk that has its passes still.
fn run_at<R, L, I, W, E>(
    ground: &Ground<'_, R>,
    options: AllOptions,
    blank: Blank,
    passes: Vec<StorePass>,
    reader: &mut I,
    writer: &mut W,
    told: &mut E,
) -> Result<bool, AllFault>
where
    R: Net<Listener = TcpListener, Stream = TcpStream> + Eprint + Threads + Wait + Clock + Sync,
    L: Ledger + Send + Sync,
    I: BufRead,
    W: Write,
    E: Write,
    requires name { blank.name ≡ L.name }
    requires parts { blank.parts ≡ L.parts }
    requires most { blank.parts ≡ 18446744073709551615 }
    requires new { All (IsNewAt ground.now.desk.now) passes.items }
    requires enough { options.threads + 4 ≤ vec_len passes }
{
    let Ground { rt, alloc, desk } = *ground;
    let (loops, places) = Loops::open(rt, alloc, options.threads).map_err(not_served)?;
    let (listener, port) = listen(rt, options.port, told).map_err(AllFault::Serve)?;
    let (signals, reach) = (Signals::new(None), Reach::new());
    let turns = Mutex::new(Turns::<L>::new(u64::MAX, blank));
    let own = OwnDesk {
        rt,
        alloc,
        desk,
        loops: &loops,
        port,
        signals: &signals,
        reach: &reach,
    };
    run_over(&own, &turns, passes, places, listener, reader, writer)
}

/// Serves and works as `all` does, of no more connections than the ledger has parts.
fn all_most<R, L, I, W, E>(
    rt: &R,
    alloc: Global,
    options: AllOptions,
    blank: Blank,
    reader: &mut I,
    writer: &mut W,
    told: &mut E,
) -> Result<bool, AllFault>
where
    R: Net<Listener = TcpListener, Stream = TcpStream> + Eprint + Threads + Wait + Clock + Sync,
    L: Ledger + Send + Sync,
    I: BufRead,
    W: Write,
    E: Write,
    requires name { blank.name ≡ L.name }
    requires parts { blank.parts ≡ L.parts }
    requires most { blank.parts ≡ 18446744073709551615 }
{
    let options = AllOptions {
        threads: options.threads.max(1).min(MOST_THREADS),
        workers: options.workers.min(MOST_WORKERS),
        ..options
    };
    let count = options.threads + (options.workers + FOLLOWERS);
    let Ok((desk, passes)) = Desk::<Readable>::open(alloc, options.window, count) else {
        return Err(AllFault::Serve(ListenFault::NoMemory));
    };
    let ground = Ground {
        rt,
        alloc,
        desk: &desk,
    };
    run_at::<R, L, I, W, E>(&ground, options, blank, passes, reader, writer, told)
}

/// Serves requests over HTTP/1.1 on the loopback address, from the empty store on, with the controllers at work there; sends the request of
/// each line that is read to this server, writes the reply lines, and stops all threads at the end of the lines. Where it listens is written
/// to `told`. Where the server or the controllers cannot go on, all threads stop: the next line that asks something gets no reply, and is the
/// last. Returns whether anything was read.
pub fn all<R, I, W, E>(
    rt: &R,
    alloc: Global,
    options: AllOptions,
    reader: &mut I,
    writer: &mut W,
    told: &mut E,
) -> Result<bool, AllFault>
where
    R: Net<Listener = TcpListener, Stream = TcpStream> + Eprint + Threads + Wait + Clock + Sync,
    I: BufRead,
    W: Write,
    E: Write,
{
    let blank = Blank::new(u64::MAX);
    all_most::<R, Brand, I, W, E>(rt, alloc, options, blank, reader, writer, told)
}

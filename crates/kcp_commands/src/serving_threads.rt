//! `kcp serve`: a server whose connections some loops answer, each on a thread of its own.
ghost use Rattle.std.specs.Prelude.{◌≡◌, ◌<◌, ◌^◌, ◌⊎◌, ℕ, All, IfErr, IfSome, OnErr, OnOk, length, max, true};
ghost use Rattle.baton.specs.Batons.{AreNumbered};
ghost use Rattle.desk.specs.Desks.{IsNewAt, window_size};
ghost use Rattle.kcp_commands.specs.Answered.{AreNew, HaveAnswered, HaveAnsweredSome};
ghost use Rattle.std.specs.Io.KnownBytes.{Appends};
ghost use Rattle.std.specs.Option.{is_some};
ghost use Rattle.kcp_loopback.specs.Threads.{HaveServed, HaveServedSome};
ghost use Rattle.http_event_loop.specs.Serving.{listening};

use crate::ground::Ground;
use desk::{Desk, Readable, StorePass};
use http_event_loop::{
    ListenFault, Listening, LoopPlace, Loops, Turns, announce, bind, count_taken, not_listening,
    run_row,
};
use kcp_loopback::{SeatedLoop, Shared};
use kcp_options::ServeOptions;
use std::alloc::Global;
use std::io::Write;
use std::marker::Brand;
use std::net::{Net, TcpListener, TcpStream};
use std::sync::ledger::{Blank, Ledger};
use std::sync::{Mutex, Wait};
use std::thread::Threads;
use std::time::Clock;

/// Returns why nothing is served: out of memory, or the port cannot be listened on.
fn not_served(fault: ListenFault) -> ListenFault
    ensures { (result ≡ ListenFault.NoMemory) ⊎ (result ≡ ListenFault.Listen) }
{
    match fault {
        ListenFault::NoMemory => ListenFault::NoMemory,
        ListenFault::Listen | ListenFault::Write => ListenFault::Listen,
    }
}

/// Says where new loops listen, and runs them until they stop: it ends well only after as many connections as the limit says.
fn run_loops<R, W, L>(
    rt: &R,
    limit: Option<u64>,
    port: u16,
    row: Vec<SeatedLoop<'_, R, L>>,
    writer: &mut W,
) -> Result<(), ListenFault>
where
    R: Threads + Wait + Clock + Sync,
    W: Write,
    L: Ledger + Send + Sync,
    requires few { L.parts < 2 ^ 64 }
    requires limit { IfSome limit (λ most. L.parts ≡ most) }
    requires new { AreNew row.items }
    ensures said { OnOk result (Appends (W.contents writer.old) (W.contents writer.new) (listening port)) }
    ensures ended { OnOk result (is_some limit ≡ true) }
    ensures ok { OnOk result (IfSome limit (λ most. HaveAnswered most row.entry.items)) }
    ensures err { OnErr result (HaveAnsweredSome limit row.entry.items) }
{
    announce(writer, port)?;
    let mut row = row;
    let outcome = run_row(rt, row.as_mut_slice());
    let served = count_taken(row);
    outcome?;
    if limit == Some(served) {
        Ok(())
    } else {
        Err(ListenFault::Listen)
    }
}

/// Listens on the port of the options, and serves requests by loops that share this, one for each place.
fn serve_shared<R, W, L>(
    shared: &Shared<'_, R, L>,
    options: ServeOptions,
    passes: Vec<StorePass>,
    places: Vec<LoopPlace>,
    writer: &mut W,
) -> Result<(), ListenFault>
where
    R: Net<Listener = TcpListener, Stream = TcpStream> + Threads + Wait + Clock + Sync,
    W: Write,
    L: Ledger + Send + Sync,
    requires few { L.parts < 2 ^ 64 }
    requires limit { IfSome options.requests (λ limit. L.parts ≡ limit) }
    requires new { All (IsNewAt shared.now.desk.now) passes.items }
    requires names { AreNumbered passes.items }
    requires count { length passes.items ≡ max options.threads 1 }
    requires window { window_size shared.now.desk.now ≡ options.window }
    requires places { length places.items ≡ length passes.items }
    ensures said { OnOk result ((taken : ℕ) × Appends (W.contents writer.old) (W.contents writer.new) (listening taken)) }
    ensures ended { OnOk result (is_some options.requests ≡ true) }
    ensures ok { OnOk result (IfSome options.requests (HaveServed R options.window (max options.threads 1))) }
    ensures err { IfErr result (λ fault. HaveServedSome R options.window (max options.threads 1) options.requests
        ⊎ (((fault ≡ ListenFault.NoMemory) ⊎ (fault ≡ ListenFault.Listen)) × (writer.new ≡ writer.old))) }
{
    let (listener, port) = match bind(shared.rt, options.port) {
        Ok(bound) => bound,
        Err(fault) => return Err(not_served(fault)),
    };
    let listening = Listening {
        listener,
        limit: options.requests,
    };
    let row = match shared.event_loops(passes, places, listening) {
        Ok(row) => row,
        Err(error) => return Err(not_served(not_listening(&error))),
    };
    run_loops(shared.rt, options.requests, port, row, writer)
}

/// Serves requests at a desk that has its passes still, of no more connections than the ledger has parts.
fn serve_at<R, W, L>(
    ground: &Ground<'_, R>,
    options: ServeOptions,
    most: u64,
    blank: Blank,
    passes: Vec<StorePass>,
    writer: &mut W,
) -> Result<(), ListenFault>
where
    R: Net<Listener = TcpListener, Stream = TcpStream> + Threads + Wait + Clock + Sync,
    W: Write,
    L: Ledger + Send + Sync,
    requires name { blank.name ≡ L.name }
    requires parts { blank.parts ≡ L.parts }
    requires most { blank.parts ≡ most }
    requires limit { IfSome options.requests (λ limit. most ≡ limit) }
    requires new { All (IsNewAt ground.now.desk.now) passes.items }
    requires names { AreNumbered passes.items }
    requires count { length passes.items ≡ max options.threads 1 }
    requires window { window_size ground.now.desk.now ≡ options.window }
    ensures said { OnOk result ((taken : ℕ) × Appends (W.contents writer.old) (W.contents writer.new) (listening taken)) }
    ensures ended { OnOk result (is_some options.requests ≡ true) }
    ensures ok { OnOk result (IfSome options.requests (HaveServed R options.window (max options.threads 1))) }
    ensures err { IfErr result (λ fault. HaveServedSome R options.window (max options.threads 1) options.requests
        ⊎ (((fault ≡ ListenFault.NoMemory) ⊎ (fault ≡ ListenFault.Listen)) × (writer.new ≡ writer.old))) }
{
    let (loops, places) = match Loops::open(ground.rt, ground.alloc, passes.len()) {
        Ok(opened) => opened,
        Err(error) => return Err(not_served(not_listening(&error))),
    };
    let turns = Mutex::new(Turns::<L>::new(most, blank));
    let shared = Shared {
        rt: ground.rt,
        alloc: ground.alloc,
        desk: ground.desk,
        loops: &loops,
        turns: &turns,
    };
    serve_shared(&shared, options, passes, places, writer)
}

/// Serves requests as `serve` does, of no more connections than the ledger has parts.
fn serve_most<R, W, L>(
    rt: &R,
    alloc: Global,
    options: ServeOptions,
    most: u64,
    blank: Blank,
    writer: &mut W,
) -> Result<(), ListenFault>
where
    R: Net<Listener = TcpListener, Stream = TcpStream> + Threads + Wait + Clock + Sync,
    W: Write,
    L: Ledger + Send + Sync,
    requires name { blank.name ≡ L.name }
    requires parts { blank.parts ≡ L.parts }
    requires most { blank.parts ≡ most }
    requires limit { IfSome options.requests (λ limit. most ≡ limit) }
    ensures said { OnOk result ((taken : ℕ) × Appends (W.contents writer.old) (W.contents writer.new) (listening taken)) }
    ensures ended { OnOk result (is_some options.requests ≡ true) }
    ensures ok { OnOk result (IfSome options.requests (HaveServed R options.window (max options.threads 1))) }
    ensures err { IfErr result (λ fault. HaveServedSome R options.window (max options.threads 1) options.requests
        ⊎ (((fault ≡ ListenFault.NoMemory) ⊎ (fault ≡ ListenFault.Listen)) × (writer.new ≡ writer.old))) }
{
    let threads = options.threads.max(1);
    let Ok((desk, passes)) = Desk::<Readable>::open(alloc, options.window, threads) else {
        return Err(ListenFault::NoMemory);
    };
    let ground = Ground {
        rt,
        alloc,
        desk: &desk,
    };
    serve_at::<R, W, L>(&ground, options, most, blank, passes, writer)
}

/// Serves requests over HTTP/1.1 on the loopback address, by as many loops as the options say of threads and one at least, from the empty
/// store on, and says first where it listens. All loops are at one desk, which opens with windows of the size that the options say, and each
/// answers many connections at a time: of each it asks the desk one thing at most, a request, a list or a watch. What is then written on
/// the connection, `http_connection` says.
///
/// It ends well only after a number of connections that the options name: then the desk was asked one thing at most for each of so many, by
/// all loops together. At an error it was asked no more than that; or the port could not be listened on, or memory ran out, before anything
/// was served or written.
pub fn serve<R, W>(
    rt: &R,
    alloc: Global,
    options: ServeOptions,
    writer: &mut W,
) -> Result<(), ListenFault>
where
    R: Net<Listener = TcpListener, Stream = TcpStream> + Threads + Wait + Clock + Sync,
    W: Write,
    ensures said { OnOk result ((taken : ℕ) × Appends (W.contents writer.old) (W.contents writer.new) (listening taken)) }
    ensures ended { OnOk result (is_some options.requests ≡ true) }
    ensures ok { OnOk result (IfSome options.requests (HaveServed R options.window (max options.threads 1))) }
    ensures err { IfErr result (λ fault. HaveServedSome R options.window (max options.threads 1) options.requests
        ⊎ (((fault ≡ ListenFault.NoMemory) ⊎ (fault ≡ ListenFault.Listen)) × (writer.new ≡ writer.old))) }
{
    let most = options.requests.unwrap_or(u64::MAX);
    serve_most::<R, W, Brand>(rt, alloc, options, most, Blank::new(most), writer)
}

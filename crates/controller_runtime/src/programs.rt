//! Controllers as programs: at a server over TCP, until a stop.
ghost use Rattle.std.specs.Prelude.{◌<◌, ◌^◌, OnOk, IfErr, All, length};
ghost use Rattle.controller_watches.specs.Watched.{IsScoped, RefusesScopes, RefusesWatches};

use crate::followed::Followed;
use crate::own_board::run_at_own_board;
use crate::pausing::RunPauses;
use crate::running::Ended;
use crate::telling::RunNotes;
use api_client::{Connect, Remote};
use api_notes::{Notes, Told};
use controller_layers::{Scoped, Telling};
use controller_watches::{StartFault, Watch, check_watches, joint_watches};
use keyed_queues::Named;
use list_and_watch::Onward;
use reconciler::{Printable, Reconciler};
use request_encoding::{Scope, ScopeFault};
use std::alloc::{AllocError, Global};
use std::io;
use std::io::BufReader;
use std::net::{Net, TcpListener, TcpStream};
use std::sync::Wait;
use std::thread::Threads;
use std::time::Clock;
use tcp_client::{Patient, StoppableConnect, TimeLimits};
use wakeups::Stop;

/// How many workers there are at most.
pub const MOST_WORKERS: usize = 64;

/// What connects to a server, named by a text, until a stop.
#[derive(Drop)]
pub struct Connector<'a, R> {
    connector: StoppableConnect<'a, R, &'a str>,
}

impl<'a, R: Net<Stream = TcpStream> + Clock> Connect for Connector<'a, R> {
    type Reader = BufReader<Patient<'a, R, TcpStream>>;

    type Writer = TcpStream;

    fn connect(&mut self) -> io::Result<(BufReader<Patient<'a, R, TcpStream>>, TcpStream)> {
        self.connector.connect()
    }

    fn connect_to_watch(
        &mut self,
    ) -> io::Result<(BufReader<Patient<'a, R, TcpStream>>, TcpStream)> {
        self.connector.connect_to_watch()
    }
}

/// How a server is asked over TCP, until a stop, and told of.
type Asked<'a, R, N> = Told<'a, Remote<Connector<'a, R>>, N>;

/// Where a server is, who is told of it, by those who follow kinds and by each worker, and what stops who asks it in a run: its end.
#[derive(Drop)]
struct Server<'a, R, N> {
    rt: &'a R,
    alloc: Global,
    address: &'a str,
    following: &'a N,
    working: &'a [N],
    over: &'a Stop,
}

impl<'a, R: Net<Stream = TcpStream> + Clock, N: Notes> Server<'a, R, N> {
    ghost use Rattle.std.specs.Prelude.{◌≡◌, IfOk, IfErr, length, vec_len};
    ghost use Rattle.request_encoding.specs.Given.{Refuses};
    ghost use Rattle.request_encoding.specs.Seen.{scope_of};
    ghost use Rattle.api_client.specs.Asked.{scope_at};
    ghost use Rattle.api_notes.specs.Told.{api_of};
    ghost use Rattle.controller_watches.specs.Watched.{scope_asked, RefusesScopes};
    ghost use Rattle.controller_runtime.specs.Watched.{AreFollowed};

    /// Returns what connects to it.
    fn connector(&self) -> Connector<'a, R> {
        Connector {
            connector: StoppableConnect::new(
                self.rt,
                self.alloc,
                self.address,
                TimeLimits::usual(),
                self.over,
            ),
        }
    }

    /// Returns how it is asked for the objects of a scope by who tells notes of it.
    fn api(&self, scope: Scope, notes: &'a N) -> Asked<'a, R, N>
        ensures { scope_at (api_of result) ≡ scope_of scope }
    {
        Told::new(Remote::within(self.connector(), scope), notes, self.over)
    }

    /// Returns how it is asked for the objects of a watch.
    fn followed(&self, watch: &Watch<'_>) -> Result<Followed<Asked<'a, R, N>>, ScopeFault>
        ensures kind { IfOk result (λ it. it.kind ≡ watch.now.kind) }
        ensures scope { IfOk result (λ it. scope_at (api_of it.api) ≡ scope_asked watch.now) }
        ensures refused { IfErr result (Refuses (scope_asked watch.now)) }
    {
        let scope = Scope::new(self.alloc, watch.namespace, watch.selector)?;
        Ok(Followed {
            kind: watch.kind,
            api: self.api(scope, self.following),
        })
    }

    /// Returns how it is asked for the objects of all watches.
    fn all_followed(
        &self,
        watches: &[Watch<'_>],
    ) -> Result<Vec<Followed<Asked<'a, R, N>>>, ScopeFault>
        ensures each { IfOk result (λ made. AreFollowed watches.now made.items) }
        ensures refused { IfErr result (RefusesScopes watches.now) }
    {
        let mut made = Vec::with_capacity(self.alloc, watches.len())?;
        for watch in watches {
            made.push_reserved(self.followed(watch)?);
        }
        Ok(made)
    }

    /// Returns the ways to ask it, one for each worker.
    fn ways(&self) -> Result<Vec<Asked<'a, R, N>>, AllocError>
        ensures { IfOk result (λ made. vec_len made ≡ length self.now.working.now) }
    {
        let mut made = Vec::with_capacity(self.alloc, self.working.len())?;
        for notes in self.working {
            made.push(self.api(Scope::everything(), notes))?;
        }
        Ok(made)
    }
}

/// Runs a controller at a server until a stop, or until another server answers than before. From then on nothing connects for this run.
fn run_once<R, K, C, N>(
    rt: &R,
    alloc: Global,
    address: &str,
    controller: &C,
    watches: &[Watch<'_>],
    following: &N,
    working: &[N],
    stop: &Stop,
) -> Result<Ended, ScopeFault>
where
    R: Net<Listener = TcpListener, Stream = TcpStream> + Threads + Wait + Clock + Sync,
    K: Named + Send,
    C: Reconciler<K> + Sync,
    N: Notes + Sync,
    requires { length working.now < 2 ^ 16 }
    ensures { IfErr result (RefusesScopes watches.now) }
{
    let over = Stop::new();
    let server = Server {
        rt,
        alloc,
        address,
        following,
        working,
        over: &over,
    };
    let followed = server.all_followed(watches)?;
    let asking = server.ways()?;
    Ok(run_at_own_board(rt, alloc, controller, followed, asking, stop, &over)?)
}

/// Runs a controller at a server until a stop, one run after another: where another server answers than before, it begins anew after a pause.
fn run_again_and_again<R, K, C, N>(
    rt: &R,
    alloc: Global,
    address: &str,
    controller: &C,
    watches: &[Watch<'_>],
    workers: usize,
    notes: &N,
    stop: &Stop,
) -> Result<(), ScopeFault>
where
    R: Net<Listener = TcpListener, Stream = TcpStream> + Threads + Wait + Clock + Sync,
    K: Named + Send,
    C: Reconciler<K> + Sync,
    N: Notes + Sync,
    ensures { IfErr result (RefusesScopes watches.now) }
{
    let workers = workers.clamp(1, MOST_WORKERS);
    let told = RunNotes::new(rt, alloc, notes, workers)?;
    let mut pauses = RunPauses::new(rt, stop);
    for _ in rt.forever() {
        let ended = run_once(
            rt,
            alloc,
            address,
            controller,
            watches,
            &told.following,
            told.working.as_slice(),
            stop,
        )?;
        if ended == Ended::Stopped || stop.is_stopped() {
            return Ok(());
        }
        told.tell_over();
        if pauses.rest() == Onward::Stop {
            return Ok(());
        }
    }
    unreachable!()
}

/// Runs a controller at a server until a stop, and follows one list of each kind that watches name, which holds all of them.
fn run_jointly<R, K, C, N>(
    rt: &R,
    alloc: Global,
    address: &str,
    controller: &C,
    watches: &[Watch<'_>],
    workers: usize,
    notes: &N,
    stop: &Stop,
) -> Result<(), ScopeFault>
where
    R: Net<Listener = TcpListener, Stream = TcpStream> + Threads + Wait + Clock + Sync,
    K: Named + Send,
    C: Reconciler<K> + Sync,
    N: Notes + Sync,
    ensures { IfErr result (RefusesScopes watches.now) }
{
    let followed = joint_watches(alloc, watches)?;
    run_again_and_again(
        rt,
        alloc,
        address,
        controller,
        followed.as_slice(),
        workers,
        notes,
        stop,
    )
}

/// Runs a controller at a server over TCP until a stop, as `run_workers` does, with so many workers, one at least and 64 at most. Where another
/// server answers than before it begins anew after a pause: 0.8 s, twice as long each time that this happens again within 2 minutes, and 30 s at most. From
/// when it is seen on, nothing is asked by what the one before showed; and nothing begins after a stop, which ends the pause too. The server is named as
/// for `TcpStream::connect`, as `"HOST:PORT"`; while none answers it is tried again. What keeps it from answering, which requests it refuses, and of which
/// keys the reconcile fails, the notes are told (`api_notes::StandardError` writes it, `api_notes::Silent` does not).
///
/// Of a kind that several watches name one list is followed, which holds all of them (`joint_watches`), and shown; but only the changes that touch one of
/// the watches are handed to the controller (`Scoped`).
///
/// The caller's own thread waits for the stop. Each followed kind, each worker and the time have one more: where the system refuses some, nothing says
/// so, and their work is not done until the run ends. Without a thread for each kind no key is taken; without the one for time a key that is to be
/// looked at again waits until another is given back; without some workers all takes longer. A stop ends the run all the same.
///
/// The error is that `check_watches` refuses the watches, before anything is asked; or running out of memory before a thread was started, of this
/// run or of one that begins anew.
pub fn run_at<R, K, C, N>(
    rt: &R,
    alloc: Global,
    address: &str,
    controller: &C,
    watches: &[Watch<'_>],
    workers: usize,
    notes: &N,
    stop: &Stop,
) -> Result<(), StartFault>
where
    R: Net<Listener = TcpListener, Stream = TcpStream> + Threads + Wait + Clock + Sync,
    K: Named + Printable + Send,
    C: Reconciler<K> + Sync,
    N: Notes + Sync,
    ensures scoped { OnOk result (All IsScoped watches.now) }
    ensures refused { IfErr result (RefusesWatches watches.now) }
{
    check_watches(alloc, watches)?;
    let scoped = Scoped::new(alloc, controller, watches)?;
    let telling = Telling::new(rt, alloc, &scoped, notes);
    run_jointly(rt, alloc, address, &telling, watches, workers, notes, stop)?;
    Ok(())
}

//! `kcp control`: the controllers, which work at a server.
ghost use Rattle.std.specs.Prelude.{◌≡◌, ◌<◌, ◌^◌};
ghost use Rattle.kcp_commands.specs.Resting.{rest_after, still_counted};

use crate::made::add;
use api_client::Remote;
use kcp_loopback::{LoopbackConnector, OtherServer, Reach};
use kcp_options::{ControlOptions, MOST_WORKERS};
use list_and_watch::Pauses;
use manager::{Apis, Open, Signals};
use object_keys::PerKind;
use std::alloc::{AllocError, Global};
use std::net::{Net, TcpListener, TcpStream};
use std::sync::Wait;
use std::thread;
use std::thread::Threads;
use std::time::{Clock, Duration};
use tcp_client::WallClock;

/// How many milliseconds a run lasts at least after which those before it count no longer.
const LONG_RUN_MILLISECONDS: u64 = 60_000;

/// The longest rest after a run whose server answered, in milliseconds: one that is started anew so often is a test's.
const LONGEST_REST: u64 = 5_000;

/// How a server of another process is asked.
type Asked<'a, R> = OtherServer<'a, R, Remote<LoopbackConnector<'a, R>>>;

/// The server that the controllers work at.
#[derive(Drop)]
struct Server<'a, R> {
    rt: &'a R,
    alloc: Global,
    port: u16,
    signals: &'a Signals,
    reach: &'a Reach,
}

impl<'a, R: Net<Listener = TcpListener, Stream = TcpStream> + Eprint + Clock> Server<'a, R> {
    ghost use Rattle.std.specs.Prelude.{◌≡◌, IfOk, vec_len};

    /// Returns what connects to it.
    fn connector(&self) -> LoopbackConnector<'a, R> {
        LoopbackConnector::new(
            self.rt,
            self.alloc,
            self.port,
            &self.signals.stop,
            self.reach,
        )
    }

    /// Returns a way to ask it.
    fn api(&self) -> Asked<'a, R> {
        OtherServer::new(self.connector(), Remote::new(self.connector()))
    }

    /// Returns ways to ask it for so many workers. The error is running out of memory.
    fn workers(&self, workers: usize) -> Result<Vec<Asked<'a, R>>, AllocError>
        ensures { IfOk result (λ made. vec_len made ≡ workers) }
    {
        let mut made = Vec::with_capacity(self.alloc, workers)?;
        while made.len() < workers {
            add(&mut made, Ok(self.api()))?;
        }
        Ok(made)
    }

    /// Returns ways to ask it, one for each thread that asks. The error is running out of memory.
    fn apis(&self, workers: usize) -> Result<Apis<Asked<'a, R>>, AllocError>
        ensures { IfOk result (λ apis. vec_len apis.workers ≡ workers) }
    {
        let workers = self.workers(workers)?;
        Ok(Apis {
            followers: PerKind::made(|_| self.api()),
            workers,
        })
    }
}

/// Runs the controllers at a server until all is to stop.
fn work_at<R>(server: &Server<'_, R>, workers: usize) -> Result<(), AllocError>
where
    R: Net<Listener = TcpListener, Stream = TcpStream> + Eprint + Threads + Wait + Clock + Sync,
    requires { workers < 2 ^ 16 }
{
    let apis = server.apis(workers)?;
    manager::run(server.rt, server.alloc, apis, server.signals, &Open)
}

/// Runs the controllers at a server that they know nothing of, until all is to stop, and returns whether they are to begin anew then: turns are
/// left, and the server has ended, or is another one. Of the turns, if a number is given, those are left that were not finished. The error is
/// running out of memory, before a turn was begun.
fn work_anew<R>(
    rt: &R,
    alloc: Global,
    port: u16,
    workers: usize,
    left: &mut Option<u64>,
    reach: &Reach,
) -> Result<bool, AllocError>
where
    R: Net<Listener = TcpListener, Stream = TcpStream> + Eprint + Threads + Wait + Clock + Sync,
    requires { workers < 2 ^ 16 }
{
    let signals = Signals::new(*left);
    let server = Server {
        rt,
        alloc,
        port,
        signals: &signals,
        reach,
    };
    reach.begin();
    match work_at(&server, workers) {
        Ok(()) => {
            *left = signals.turns_left();
            Ok(!signals.has_finished() && (signals.has_lost() || reach.is_gone()))
        }
        Err(error) => Err(error),
    }
}

/// Returns how many of the runs that have ended count still after one that began and ended at these moments, in milliseconds: after one of a
/// minute or more none.
fn still_counted(failures: u32, began: u64, ended: u64) -> u32
    ensures { result ≡ still_counted failures began ended }
{
    if ended.saturating_sub(began) < LONG_RUN_MILLISECONDS {
        failures
    } else {
        0
    }
}

/// Returns how long to rest before the next run, in milliseconds, where a follower would pause for so long: at most 5 seconds where the server of
/// the run that ended answered.
fn rest_after(has_answered: bool, pause: u64) -> u64
    ensures { result ≡ rest_after has_answered pause }
{
    if has_answered {
        pause.min(LONGEST_REST)
    } else {
        pause
    }
}

/// Runs the controllers anew until they are not to begin anew again. Before each run it rests as a follower does after a try that failed
/// (`Pauses`), but that a run of a minute or more ends the row of failures, and that it rests 5 seconds at most after a run whose server
/// answered: so a server that cuts all that it is asked is asked now and then, and one that a test starts again and again is not waited with.
/// Where memory is short for a run it is tried again after a rest. Meanwhile no thread works, so none is there to stop it.
fn work_again<R>(
    rt: &R,
    alloc: Global,
    port: u16,
    workers: usize,
    left: &mut Option<u64>,
    reach: &Reach,
    clock: &mut WallClock<'_, R>,
)
where
    R: Net<Listener = TcpListener, Stream = TcpStream> + Eprint + Threads + Wait + Clock + Sync,
    requires { workers < 2 ^ 16 }
{
    let mut pauses = Pauses {
        failures: 0,
        last: 0,
    };
    let mut began = 0;
    for _ in rt.forever() {
        let ended = clock.milliseconds();
        pauses.failures = still_counted(pauses.failures, began, ended);
        let rest = rest_after(reach.has_answered(), pauses.on_failed(ended));
        thread::sleep(rt, Duration::from_millis(rest));
        began = clock.milliseconds();
        if let Ok(false) = work_anew(rt, alloc, port, workers, left, reach) {
            return;
        }
    }
}

/// Runs the controllers at the server of a port until so many turns are finished, if a number is given. Where the server ends, loses its
/// memory or is another one, they begin anew after a rest of 0.8 to 5 seconds, or of up to 30 where it answered nothing: they know nothing then but what the server lists that comes
/// after it. The error is running out of memory before they have begun once.
pub fn control<R>(rt: &R, alloc: Global, options: ControlOptions) -> Result<(), AllocError>
where
    R: Net<Listener = TcpListener, Stream = TcpStream> + Eprint + Threads + Wait + Clock + Sync,
{
    let ControlOptions {
        port,
        workers,
        turns,
    } = options;
    let workers = workers.min(MOST_WORKERS);
    let reach = Reach::new();
    let mut clock = WallClock::new(rt);
    let mut left = turns;
    match work_anew(rt, alloc, port, workers, &mut left, &reach) {
        Ok(true) => {
            work_again(rt, alloc, port, workers, &mut left, &reach, &mut clock);
            Ok(())
        }
        Ok(false) => Ok(()),
        Err(error) => Err(error),
    }
}

//! What `kcp all` runs in threads beside its lines.
use http_event_loop::{ListenFault, Loops, run_row};
use kcp_loopback::{LoopbackConnector, OwnServer, SeatedLoop};
use kcp_options::MOST_WORKERS;
use manager::{Apis, Open, Signals};
use std::alloc::{AllocError, Global};
use std::net::{Net, TcpListener, TcpStream};
use std::sync::Wait;
use std::sync::ledger::Ledger;
use std::thread::Threads;
use std::time::Clock;

/// How the server of this process is asked: at its desk, and over connections for lists and watches.
pub type Own<'a, R> = OwnServer<'a, R, LoopbackConnector<'a, R>>;

/// The controllers, and how they ask.
#[derive(Drop)]
pub struct Controllers<'a, R, A> {
    pub rt: &'a R,
    pub alloc: Global,
    pub apis: Apis<A>,
    pub signals: &'a Signals,
    pub loops: &'a Loops,
}

/// Runs the controllers of this process until all is to stop. The error is running out of memory, and then all is to stop.
pub fn run_controllers<'a, R>(controllers: Controllers<'a, R, Own<'a, R>>) -> Result<(), AllocError>
where
    R: Net<Listener = TcpListener, Stream = TcpStream> + Eprint + Threads + Wait + Clock + Sync,
{
    let Controllers {
        rt,
        alloc,
        apis,
        signals,
        loops,
    } = controllers;
    let Apis { followers, workers } = apis;
    let mut workers = workers;
    workers.truncate(MOST_WORKERS);
    let outcome = manager::run(rt, alloc, Apis { followers, workers }, signals, &Open);
    if outcome.is_err() {
        signals.stop_all();
        loops.stop();
    }
    outcome
}

/// The loops that answer the connections of a listener.
#[derive(Drop)]
pub struct Answering<'a, R, L: Ledger> {
    pub rt: &'a R,
    pub event_loops: Vec<SeatedLoop<'a, R, L>>,
    pub signals: &'a Signals,
}

impl<R, L> Answering<'_, R, L>
where
    R: Threads + Wait + Clock + Sync,
    L: Ledger + Send + Sync,
{
    /// Answers connections until all is to stop. At an error, which ends all loops, all is to stop.
    pub fn run(self) -> Result<(), ListenFault> {
        let Answering {
            rt,
            event_loops,
            signals,
        } = self;
        let mut event_loops = event_loops;
        let outcome = run_row(rt, event_loops.as_mut_slice());
        drop(event_loops);
        if outcome.is_err() {
            signals.stop_all();
        }
        outcome
    }
}

//! How the controllers of `kcp all` ask the server of their own process.
ghost use Rattle.std.specs.Prelude.{All};
ghost use Rattle.desk.specs.Desks.{IsNewAt};

use crate::made::add;
use crate::parts::{Answering, Controllers, Own};
use desk::{Desk, Readable, StorePass};
use http_event_loop::{Listening, LoopPlace, Loops, Turns};
use kcp_loopback::{LoopbackConnector, OwnServer, Reach, Shared};
use manager::{Apis, Signals};
use object_keys::PerKind;
use std::alloc::{AllocError, Global};
use std::io;
use std::net::{Net, TcpListener, TcpStream};
use std::sync::ledger::Ledger;
use std::sync::{Mutex, Wait};
use std::time::Clock;

/// The desk that the threads of this process share, and the port at which it listens.
#[derive(Drop)]
pub struct OwnDesk<'a, R> {
    pub rt: &'a R,
    pub alloc: Global,
    pub desk: &'a Desk<Readable>,
    pub loops: &'a Loops,
    pub port: u16,
    pub signals: &'a Signals,
    pub reach: &'a Reach,
}

impl<'a, R: Net<Listener = TcpListener, Stream = TcpStream> + Eprint + Wait + Clock> OwnDesk<
    'a,
    R,
> {
    ghost use Rattle.std.specs.Prelude.{◌≡◌, ◌<◌, ◌≤◌, ◌+◌, All, IfOk, OnOk, vec_len};
    ghost use Rattle.desk.specs.Desks.{IsNewAt};

    /// Returns what connects to the port.
    pub fn connector(&self) -> LoopbackConnector<'a, R> {
        LoopbackConnector::new(
            self.rt,
            self.alloc,
            self.port,
            &self.signals.stop,
            self.reach,
        )
    }

    /// Returns the last of the passes.
    fn next_pass(&self, passes: &mut Vec<StorePass>) -> StorePass
        requires new { All (IsNewAt self.now.desk.now) passes.old.items }
        requires some { 0 < vec_len passes.old }
        ensures pass { IsNewAt self.now.desk.now result }
        ensures left { All (IsNewAt self.now.desk.now) passes.new.items }
        ensures count { vec_len passes.new + 1 ≡ vec_len passes.old }
    {
        let Some(pass) = passes.pop() else {
            unreachable!()
        };
        pass
    }

    /// Returns a way to ask, with a pass. The error is running out of memory.
    fn server(&self, pass: StorePass) -> Result<Own<'a, R>, AllocError>
        requires { IsNewAt self.now.desk.now pass }
    {
        OwnServer::new(
            self.rt,
            self.alloc,
            self.desk,
            pass,
            self.loops,
            self.connector(),
        )
    }

    /// Returns ways to ask for those that follow a kind, with the last of the passes. The error is running out of memory.
    fn followers(&self, passes: &mut Vec<StorePass>) -> Result<PerKind<Own<'a, R>>, AllocError>
        requires new { All (IsNewAt self.now.desk.now) passes.old.items }
        requires some { 4 ≤ vec_len passes.old }
        ensures left { All (IsNewAt self.now.desk.now) passes.new.items }
        ensures count { vec_len passes.new + 4 ≡ vec_len passes.old }
    {
        let Some(taken) = PerKind::taken_from(passes) else {
            unreachable!()
        };
        taken.try_map(|pass| self.server(pass))
    }

    /// Returns ways to ask for so many workers, with the last of the passes. The error is running out of memory.
    fn workers(
        &self,
        passes: &mut Vec<StorePass>,
        workers: usize,
    ) -> Result<Vec<Own<'a, R>>, AllocError>
        requires new { All (IsNewAt self.now.desk.now) passes.old.items }
        requires enough { workers ≤ vec_len passes.old }
        ensures left { All (IsNewAt self.now.desk.now) passes.new.items }
        ensures count { OnOk result (vec_len passes.new + workers ≡ vec_len passes.old) }
        ensures made { IfOk result (λ made. vec_len made ≡ workers) }
    {
        let mut made = Vec::with_capacity(self.alloc, workers)?;
        while made.len() < workers {
            let pass = self.next_pass(passes);
            add(&mut made, self.server(pass))?;
        }
        Ok(made)
    }

    /// Returns ways to ask, one for each thread that asks, with the last of the passes. The error is running out of memory.
    fn apis(
        &self,
        passes: &mut Vec<StorePass>,
        workers: usize,
    ) -> Result<Apis<Own<'a, R>>, AllocError>
        requires new { All (IsNewAt self.now.desk.now) passes.old.items }
        requires enough { workers + 4 ≤ vec_len passes.old }
        ensures left { All (IsNewAt self.now.desk.now) passes.new.items }
        ensures count { OnOk result (vec_len passes.new + (workers + 4) ≡ vec_len passes.old) }
        ensures made { IfOk result (λ apis. vec_len apis.workers ≡ workers) }
    {
        let workers = self.workers(passes, workers)?;
        let followers = self.followers(passes)?;
        Ok(Apis { followers, workers })
    }

    /// Returns the controllers, whose threads ask with the last of the passes. The error is running out of memory.
    pub fn controllers(
        &self,
        passes: &mut Vec<StorePass>,
        workers: usize,
    ) -> Result<Controllers<'a, R, Own<'a, R>>, AllocError>
        requires new { All (IsNewAt self.now.desk.now) passes.old.items }
        requires enough { workers + 4 ≤ vec_len passes.old }
        ensures left { All (IsNewAt self.now.desk.now) passes.new.items }
        ensures count { OnOk result (vec_len passes.new + (workers + 4) ≡ vec_len passes.old) }
    {
        let apis = self.apis(passes, workers)?;
        Ok(Controllers {
            rt: self.rt,
            alloc: self.alloc,
            apis,
            signals: self.signals,
            loops: self.loops,
        })
    }

    /// Returns what answers the connections of a listener, with a loop for each pass and place. The error is one of the system, or running
    /// out of memory.
    pub fn answering<L: Ledger>(
        &self,
        turns: &'a Mutex<Turns<L>>,
        passes: Vec<StorePass>,
        places: Vec<LoopPlace>,
        listener: TcpListener,
    ) -> io::Result<Answering<'a, R, L>>
        requires new { All (IsNewAt self.now.desk.now) passes.items }
        requires count { vec_len places ≡ vec_len passes }
    {
        let shared = Shared {
            rt: self.rt,
            alloc: self.alloc,
            desk: self.desk,
            loops: self.loops,
            turns,
        };
        let listening = Listening {
            listener,
            limit: None,
        };
        Ok(Answering {
            rt: self.rt,
            event_loops: shared.event_loops(passes, places, listening)?,
            signals: self.signals,
        })
    }
}

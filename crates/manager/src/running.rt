//! All threads of a manager.
ghost use Rattle.std.specs.Prelude.{◌≡◌, ◌<◌, ◌^◌, ◌+◌, IfOk, OnOk, All, vec_len};
ghost use Rattle.control_desk.specs.Desks.{IsNewAt};

use crate::handler::Handler;
use crate::members::ManagerThread;
use crate::reflecting::Reflecting;
use crate::ticking::Ticker;
use api_client::Api;
use control_desk::{ControlDesk, WorkPass};
use informer::{Listers, SharedInformer, listers_of, open_informers};
use manager_worker::{Gate, Signals, Tools, Worker};
use object_keys::PerKind;
use spec_api::kinds::Kind;
use std::alloc::{AllocError, Global};
use std::sync::Wait;
use std::thread::{Threads, for_each_mut};
use std::time::Clock;

/// How many threads look at what is published beside the workers: each that follows a kind.
pub const FOLLOWERS: usize = Kind::ALL.len();

/// How the threads of a manager ask its server: each asks for itself.
#[derive(Drop)]
pub struct Apis<A> {
    /// Those that follow the kinds.
    pub followers: PerKind<A>,
    /// The workers.
    pub workers: Vec<A>,
}

/// What all threads share.
#[derive(Drop)]
struct Shared<'a, R, G> {
    rt: &'a R,
    alloc: Global,
    desk: &'a ControlDesk,
    signals: &'a Signals,
    gate: &'a G,
}

impl<'a, R: Threads + Wait + Clock + Sync, G: Gate> Shared<'a, R, G> {
    /// Returns the last of the passes.
    fn next_pass(&self, passes: &mut Vec<WorkPass>) -> WorkPass
        requires new { All (IsNewAt self.now.desk.now) passes.old.items }
        requires some { 0 < vec_len passes.old }
        ensures pass { IsNewAt self.now.desk.now result }
        ensures left { All (IsNewAt self.now.desk.now) passes.new.items }
        ensures count { vec_len passes.new + 1 ≡ vec_len passes.old }
    {
        let Some(pass) = passes.pop() else {
            unreachable!()
        };
        pass
    }

    /// Returns what follows a kind.
    fn follows<A: Api + Drop>(
        &self,
        kind: Kind,
        pass: WorkPass,
        informer: SharedInformer<'a, R>,
        listers: Listers,
        api: A,
    ) -> ManagerThread<'a, R, A, G>
        requires { IsNewAt self.now.desk.now pass }
    {
        let handler = Handler::new(
            self.rt,
            self.alloc,
            kind,
            self.desk,
            pass,
            self.signals,
            listers,
        );
        ManagerThread::Follows(Reflecting::new(
            self.rt,
            self.alloc,
            kind,
            self.signals,
            informer,
            api,
            handler,
        ))
    }

    /// Returns a worker.
    fn works<A: Api + Drop>(
        &self,
        pass: WorkPass,
        listers: Listers,
        api: A,
    ) -> ManagerThread<'a, R, A, G>
        requires { IsNewAt self.now.desk.now pass }
    {
        let tools = Tools {
            rt: self.rt,
            alloc: self.alloc,
            signals: self.signals,
            gate: self.gate,
            listers,
            api,
        };
        ManagerThread::Works(Worker::new(self.desk, pass, tools))
    }
}

/// Returns the workers, one for each way to ask. The error is running out of memory.
fn workers<'a, R: Threads + Wait + Clock + Sync, A: Api + Drop, G: Gate>(
    shared: &Shared<'a, R, G>,
    passes: &mut Vec<WorkPass>,
    informers: &mut PerKind<SharedInformer<'a, R>>,
    apis: Vec<A>,
) -> Result<Vec<ManagerThread<'a, R, A, G>>, AllocError>
    requires passes { All (IsNewAt shared.now.desk.now) passes.old.items }
    requires enough { vec_len passes.old ≡ vec_len apis + 5 }
    ensures passes { All (IsNewAt shared.now.desk.now) passes.new.items }
    ensures left { OnOk result (vec_len passes.new ≡ 5) }
    ensures made { IfOk result (λ made. vec_len made ≡ vec_len apis) }
{
    let mut made = Vec::with_capacity(shared.alloc, apis.len())?;
    let mut left = apis;
    while let Some(api) = left.pop() {
        let pass = shared.next_pass(passes);
        made.push(shared.works(pass, listers_of(informers)?, api))?;
    }
    Ok(made)
}

/// Adds what follows each of the kinds, with the last of the passes. The error is running out of memory.
fn add_followers<'a, R: Threads + Wait + Clock + Sync, A: Api + Drop, G: Gate>(
    shared: &Shared<'a, R, G>,
    passes: &mut Vec<WorkPass>,
    kinds: Vec<(Kind, ((SharedInformer<'a, R>, Listers), A))>,
    made: Vec<ManagerThread<'a, R, A, G>>,
) -> Result<Vec<ManagerThread<'a, R, A, G>>, AllocError>
    requires passes { All (IsNewAt shared.now.desk.now) passes.old.items }
    requires enough { vec_len passes.old ≡ vec_len kinds + 1 }
    ensures passes { All (IsNewAt shared.now.desk.now) passes.new.items }
    ensures left { OnOk result (vec_len passes.new ≡ 1) }
    ensures made { IfOk result (λ all. vec_len all ≡ vec_len made.entry + vec_len kinds.entry) }
{
    let (mut left, mut all) = (kinds, made);
    while let Some((kind, ((informer, listers), api))) = left.pop() {
        let pass = shared.next_pass(passes);
        all.push(shared.follows(kind, pass, informer, listers, api))?;
    }
    Ok(all)
}

/// Returns what each thread does. The error is running out of memory.
fn members<'a, R: Threads + Wait + Clock + Sync, A: Api + Drop, G: Gate>(
    shared: &Shared<'a, R, G>,
    passes: Vec<WorkPass>,
    informers: PerKind<SharedInformer<'a, R>>,
    apis: Apis<A>,
) -> Result<Vec<ManagerThread<'a, R, A, G>>, AllocError>
    requires passes { All (IsNewAt shared.now.desk.now) passes.items }
    requires enough { vec_len passes ≡ vec_len apis.workers + 5 }
    ensures { IfOk result (λ made. vec_len made ≡ vec_len apis.workers + 5) }
{
    let (mut passes, mut informers) = (passes, informers);
    let made = workers(shared, &mut passes, &mut informers, apis.workers)?;
    let listers = PerKind::try_made_in_turn(|_| listers_of(&mut informers))?;
    let kinds = informers
        .zip(listers)
        .zip(apis.followers)
        .into_entries(shared.alloc)?;
    let mut made = add_followers(shared, &mut passes, kinds, made)?;
    made.push(ManagerThread::Ticks(Ticker::new(
        shared.rt,
        shared.desk,
        shared.next_pass(&mut passes),
        shared.signals,
    )))?;
    Ok(made)
}

/// Runs the controllers until all is to stop, and joins all threads: one that follows each kind and handles its changes, one that lets time
/// pass, and the workers. Before each plan a worker passes the gate, and after it. The error is running out of memory before a thread
/// was started.
///
/// No clause says that a thread starts or gets on. What a thread does at the board, each call of the board says, and what a worker
/// commands its turn.
pub fn run<R, A, G>(
    rt: &R,
    alloc: Global,
    apis: Apis<A>,
    signals: &Signals,
    gate: &G,
) -> Result<(), AllocError>
where
    R: Threads + Wait + Clock + Sync,
    A: Api + Send + Drop,
    G: Gate + Sync,
    requires { vec_len apis.workers < 2 ^ 16 }
{
    let count = apis.workers.len();
    let (desk, passes) = ControlDesk::open(alloc, count + FOLLOWERS + 1)?;
    let shared = Shared {
        rt,
        alloc,
        desk: &desk,
        signals,
        gate,
    };
    let informers = open_informers(rt, alloc, count + FOLLOWERS)?;
    let mut members = members(&shared, passes, informers, apis)?;
    let threads = members.len().max(1);
    for_each_mut(
        rt,
        members.as_mut_slice(),
        threads,
        &|_, member| {
            member.run();
        },
    );
    Ok(())
}

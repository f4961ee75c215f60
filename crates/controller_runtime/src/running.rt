//! All threads of a run.
ghost use Rattle.std.specs.Prelude.{◌≡◌, ◌<◌, ◌≤◌, ◌+◌, ◌^◌, IfOk, OnOk, All, vec_len};
ghost use Rattle.shared_keyed_board.specs.Passes.{IsNewAt};
ghost use Rattle.controller_runtime.specs.Runs.{IsBack};
ghost use Rattle.controller_runtime.specs.Threads.{IsReady, IsStopper, StopsLast};

use crate::followed::{Followed, apis_of, kinds_in};
use crate::following::KindFollower;
use crate::handling::ChangeHandler;
use crate::joining::{run_all, take_back};
use crate::means::Means;
use crate::members::RunThread;
use crate::stopping::Stopper;
use crate::ticking::Ticker;
use crate::under_way::UnderWay;
use crate::working::Worker;
use api_client::Api;
use informer::{Listers, SharedInformer, listers_of, open_informers};
use keyed_queues::Named;
use list_and_watch::Follower;
use object_keys::PerKind;
use reconciler::Reconciler;
use shared_keyed_board::{BoardPass, SharedKeyedBoard};
use spec_api::kinds::Kind;
use std::alloc::{AllocError, Global};
use std::sync::Wait;
use std::thread::Threads;
use std::time::Clock;
use tcp_client::StoppableClock;
use wakeups::Stop;

/// Why a run ended.
#[derive(Clone, Copy)]
pub enum Ended {
    /// It was to stop.
    Stopped,
    /// Another server answers than before: all that was queued is of one that is there no more. Who runs it again begins anew.
    OtherServer,
}

/// How many threads there are beside the workers at most: one for each kind, the ticker, the stopper.
pub const OTHER_THREADS: usize = Kind::ALL.len() + 2;

/// What all threads of a run share.
#[derive(Drop)]
struct Ground<'a, R, C, K: Named> {
    rt: &'a R,
    alloc: Global,
    controller: &'a C,
    board: &'a SharedKeyedBoard<K>,
    under_way: &'a UnderWay<'a>,
    stop: &'a Stop,
}

impl<'a, R: Threads + Wait + Clock + Sync, K: Named, C: Reconciler<K>> Ground<'a, R, C, K> {
    /// Returns the last of the passes.
    fn next_pass(&self, passes: &mut Vec<BoardPass<K>>) -> BoardPass<K>
        requires new { All (IsNewAt self.now.board.now) passes.old.items }
        requires some { 0 < vec_len passes.old }
        ensures pass { IsNewAt self.now.board.now result }
        ensures left { All (IsNewAt self.now.board.now) passes.new.items }
        ensures count { vec_len passes.new + 1 ≡ vec_len passes.old }
    {
        let Some(pass) = passes.pop() else {
            unreachable!()
        };
        pass
    }

    /// Returns what follows a kind.
    fn follows<A: Api + Drop>(
        &self,
        kind: Kind,
        pass: BoardPass<K>,
        informer: SharedInformer<'a, R>,
        listers: Listers,
        api: A,
    ) -> RunThread<'a, R, C, K, A>
        requires { IsNewAt self.now.board.now pass }
        ensures { IsReady C.owes C.ends K.says self.now.board.now result }
    {
        let handler = ChangeHandler::new(
            self.rt,
            self.alloc,
            self.controller,
            self.board,
            pass,
            self.under_way,
            listers,
        );
        RunThread::Follows(KindFollower {
            alloc: self.alloc,
            kind,
            follower: Follower::streaming(self.alloc, kind, informer),
            api,
            handler,
        })
    }

    /// Returns a worker.
    fn works<A: Api + Drop>(
        &self,
        pass: BoardPass<K>,
        listers: Listers,
        api: A,
    ) -> RunThread<'a, R, C, K, A>
        requires { IsNewAt self.now.board.now pass }
        ensures { IsReady C.owes C.ends K.says self.now.board.now result }
    {
        let means = Means {
            rt: self.rt,
            alloc: self.alloc,
            controller: self.controller,
            under_way: self.under_way,
            clock: StoppableClock::new(self.rt, self.under_way.over),
            listers,
            api,
        };
        RunThread::Works(Worker { pass, means })
    }

    /// Returns what lets time pass.
    fn ticks<A: Api + Drop>(&self, pass: BoardPass<K>) -> RunThread<'a, R, C, K, A>
        requires { IsNewAt self.now.board.now pass }
        ensures { IsReady C.owes C.ends K.says self.now.board.now result }
    {
        RunThread::Ticks(Ticker {
            rt: self.rt,
            pass,
            under_way: self.under_way,
            clock: StoppableClock::new(self.rt, self.under_way.over),
        })
    }

    /// Returns what ends the run at a stop.
    fn stops<A: Api + Drop>(&self, pass: BoardPass<K>) -> RunThread<'a, R, C, K, A>
        requires { IsNewAt self.now.board.now pass }
        ensures ready { IsReady C.owes C.ends K.says self.now.board.now result }
        ensures stopper { IsStopper result }
    {
        RunThread::Stops(Stopper {
            rt: self.rt,
            pass,
            under_way: self.under_way,
            stop: self.stop,
        })
    }

    /// Adds what follows a kind, if it is followed. The informer of one that is not comes back, and the pass stays. The error is running out of
    /// memory.
    fn add_follower<A: Api + Drop>(
        &self,
        threads: &mut Vec<RunThread<'a, R, C, K, A>>,
        passes: &mut Vec<BoardPass<K>>,
        kind: Kind,
        followed: (SharedInformer<'a, R>, Listers),
        api: Option<A>,
    ) -> Result<Option<SharedInformer<'a, R>>, AllocError>
        requires ready { All (IsReady C.owes C.ends K.says self.now.board.now) threads.old.items }
        requires passes { All (IsNewAt self.now.board.now) passes.old.items }
        requires some { 0 < vec_len passes.old }
        ensures ready { OnOk result (All (IsReady C.owes C.ends K.says self.now.board.now) threads.new.items) }
        ensures passes { All (IsNewAt self.now.board.now) passes.new.items }
        ensures count { OnOk result (vec_len threads.new + vec_len passes.new ≡ vec_len threads.old + vec_len passes.old) }
        ensures left { vec_len passes.old ≤ vec_len passes.new + 1 }
    {
        let (informer, listers) = followed;
        match api {
            Some(api) => {
                let pass = self.next_pass(passes);
                threads.push(self.follows(kind, pass, informer, listers, api))?;
                Ok(None)
            }
            None => Ok(Some(informer)),
        }
    }
}

/// Returns the workers, one for each way to ask. The error is running out of memory.
fn workers<'a, R: Threads + Wait + Clock + Sync, K: Named, C: Reconciler<K>, A: Api + Drop>(
    ground: &Ground<'a, R, C, K>,
    passes: &mut Vec<BoardPass<K>>,
    informers: &mut PerKind<SharedInformer<'a, R>>,
    apis: Vec<A>,
) -> Result<Vec<RunThread<'a, R, C, K, A>>, AllocError>
    requires passes { All (IsNewAt ground.now.board.now) passes.old.items }
    requires enough { vec_len passes.old ≡ vec_len apis + 6 }
    ensures passes { All (IsNewAt ground.now.board.now) passes.new.items }
    ensures left { OnOk result (vec_len passes.new ≡ 6) }
    ensures made { IfOk result (λ made. vec_len made ≡ vec_len apis) }
    ensures ready { IfOk result (λ made. All (IsReady C.owes C.ends K.says ground.now.board.now) made.items) }
{
    let mut made = Vec::with_capacity(ground.alloc, apis.len())?;
    let mut left = apis;
    while let Some(api) = left.pop() {
        let pass = ground.next_pass(passes);
        made.push(ground.works(pass, listers_of(informers)?, api))?;
    }
    Ok(made)
}

/// The threads of a run, and the informers of the kinds that nobody follows: they stay open, and empty, until the run ends.
#[derive(Drop)]
struct Members<'a, R: Wait, C, K: Named, A: Drop> {
    threads: Vec<RunThread<'a, R, C, K, A>>,
    _empty: Vec<SharedInformer<'a, R>>,
}

/// Adds what follows each kind that is followed. A pass is left for each other kind. The error is running out of memory.
fn with_followers<'a, R: Threads + Wait + Clock + Sync, K: Named, C: Reconciler<K>, A: Api + Drop>(
    ground: &Ground<'a, R, C, K>,
    passes: &mut Vec<BoardPass<K>>,
    kinds: Vec<(Kind, ((SharedInformer<'a, R>, Listers), Option<A>))>,
    made: Vec<RunThread<'a, R, C, K, A>>,
) -> Result<Members<'a, R, C, K, A>, AllocError>
    requires passes { All (IsNewAt ground.now.board.now) passes.old.items }
    requires enough { vec_len passes.old ≡ vec_len kinds }
    requires ready { All (IsReady C.owes C.ends K.says ground.now.board.now) made.items }
    ensures passes { All (IsNewAt ground.now.board.now) passes.new.items }
    ensures ready { IfOk result (λ m. All (IsReady C.owes C.ends K.says ground.now.board.now) m.threads.items) }
    ensures count { IfOk result (λ m. vec_len m.threads + vec_len passes.new ≡ vec_len made.entry + vec_len kinds.entry) }
{
    let (mut left, mut threads) = (kinds, made);
    let mut empty = Vec::with_capacity(ground.alloc, left.len())?;
    while let Some((kind, (followed, api))) = left.pop() {
        if let Some(informer) = ground.add_follower(&mut threads, passes, kind, followed, api)? {
            empty.push(informer)?;
        }
    }
    Ok(Members {
        threads,
        _empty: empty,
    })
}

/// Adds what ends the run at a stop, behind all others: the last thread is the caller's own, so it runs also where the system gives no further one.
/// The error is running out of memory.
fn with_stopper<'a, R: Threads + Wait + Clock + Sync, K: Named, C: Reconciler<K>, A: Api + Drop>(
    ground: &Ground<'a, R, C, K>,
    pass: BoardPass<K>,
    others: Members<'a, R, C, K, A>,
) -> Result<Members<'a, R, C, K, A>, AllocError>
    requires pass { IsNewAt ground.now.board.now pass }
    requires ready { All (IsReady C.owes C.ends K.says ground.now.board.now) others.threads.items }
    ensures ready { IfOk result (λ m. All (IsReady C.owes C.ends K.says ground.now.board.now) m.threads.items) }
    ensures last { IfOk result (λ m. StopsLast m.threads.items) }
    ensures count { IfOk result (λ m. vec_len m.threads ≡ vec_len others.entry.threads + 1) }
{
    let mut members = others;
    members.threads.push(ground.stops(pass))?;
    Ok(members)
}

/// Returns what each thread does: the last waits for the stop. A pass is left for each kind that nobody follows. The error is running out of memory.
fn all_members<'a, R: Threads + Wait + Clock + Sync, K: Named, C: Reconciler<K>, A: Api + Drop>(
    ground: &Ground<'a, R, C, K>,
    passes: &mut Vec<BoardPass<K>>,
    informers: PerKind<SharedInformer<'a, R>>,
    apis: PerKind<Option<A>>,
    asking: Vec<A>,
) -> Result<Members<'a, R, C, K, A>, AllocError>
    requires passes { All (IsNewAt ground.now.board.now) passes.old.items }
    requires enough { vec_len passes.old ≡ vec_len asking + 6 }
    ensures passes { All (IsNewAt ground.now.board.now) passes.new.items }
    ensures ready { IfOk result (λ m. All (IsReady C.owes C.ends K.says ground.now.board.now) m.threads.items) }
    ensures last { IfOk result (λ m. StopsLast m.threads.items) }
    ensures count { IfOk result (λ m. vec_len m.threads + vec_len passes.new ≡ vec_len passes.old) }
{
    let mut informers = informers;
    let mut threads = workers(ground, passes, &mut informers, asking)?;
    threads.push(ground.ticks(ground.next_pass(passes)))?;
    let listers = PerKind::try_made_in_turn(|_| listers_of(&mut informers))?;
    let kinds = informers.zip(listers).zip(apis).into_entries(ground.alloc)?;
    let pass = ground.next_pass(passes);
    let members = with_followers(ground, passes, kinds, threads)?;
    with_stopper(ground, pass, members)
}

/// Returns why a run has ended.
fn end_of(under_way: &UnderWay<'_>) -> Ended {
    if under_way.has_lost() {
        Ended::OtherServer
    } else {
        Ended::Stopped
    }
}

/// Runs a controller at a board, as `run_at_board` does, and has the run's end stop what the caller made for it alone, as the connections of the
/// ways to ask: it stops at the caller's stop, and where another server answers than before.
pub(crate) fn run_until_over<R, K, C, A>(
    rt: &R,
    alloc: Global,
    controller: &C,
    followed: Vec<Followed<A>>,
    asking: Vec<A>,
    stop: &Stop,
    over: &Stop,
    board: &SharedKeyedBoard<K>,
    passes: Vec<BoardPass<K>>,
) -> Result<(Ended, Vec<BoardPass<K>>), AllocError>
where
    R: Threads + Wait + Clock + Sync,
    K: Named + Send,
    C: Reconciler<K> + Sync,
    A: Api + Send + Drop,
    requires few { vec_len asking < 2 ^ 16 }
    requires enough { vec_len passes ≡ vec_len asking + 6 }
    requires new { All (IsNewAt board.now) passes.items }
    ensures back { IfOk result (λ r. All (IsBack C.owes C.ends K.says board.now) r.1.items) }
    ensures count { IfOk result (λ r. vec_len r.1 ≡ vec_len passes) }
{
    let mut passes = passes;
    let informers = open_informers(rt, alloc, asking.len() + Kind::ALL.len())?;
    let apis = apis_of(followed);
    let under_way = UnderWay::new(over, kinds_in(&apis));
    let ground = Ground {
        rt,
        alloc,
        controller,
        board,
        under_way: &under_way,
        stop,
    };
    let mut members = all_members(&ground, &mut passes, informers, apis, asking)?;
    passes.reserve(members.threads.len())?;
    run_all(rt, board, &mut members.threads);
    take_back(board, &mut passes, members.threads);
    Ok((end_of(&under_way), passes))
}

/// Runs a controller at a board of the caller's, as `run_workers` does at one of its own, and gives its passes back. It is given a pass for each
/// worker, and six more.
///
/// Each comes back with no key in its hand. Its steps, each one of the board's one history, are those of a run: keys were added that changes
/// owed, by maps that listers knew; a key was taken, or given back with how its reconcile ended, by maps that listers knew; time passed; or the board
/// was shut down. No clause says that these listers are of the run's own informers: the code makes no others.
/// Where the run was over while a key was in its hand, it gave that back as done, last of all. Who then looks back (`look_back`) learns a history
/// of which the laws of `shared_keyed_board` speak: no key was ever in two hands, and until the board was shut down each that a change owed
/// waited, or was taken after it.
///
/// The error is running out of memory before a thread was started, and drops the passes; where it runs out later, who needs it waits. No clause
/// says that a thread starts or gets on.
pub fn run_at_board<R, K, C, A>(
    rt: &R,
    alloc: Global,
    controller: &C,
    followed: Vec<Followed<A>>,
    asking: Vec<A>,
    stop: &Stop,
    board: &SharedKeyedBoard<K>,
    passes: Vec<BoardPass<K>>,
) -> Result<(Ended, Vec<BoardPass<K>>), AllocError>
where
    R: Threads + Wait + Clock + Sync,
    K: Named + Send,
    C: Reconciler<K> + Sync,
    A: Api + Send + Drop,
    requires few { vec_len asking < 2 ^ 16 }
    requires enough { vec_len passes ≡ vec_len asking + 6 }
    requires new { All (IsNewAt board.now) passes.items }
    ensures back { IfOk result (λ r. All (IsBack C.owes C.ends K.says board.now) r.1.items) }
    ensures count { IfOk result (λ r. vec_len r.1 ≡ vec_len passes) }
{
    let over = Stop::new();
    run_until_over(
        rt, alloc, controller, followed, asking, stop, &over, board, passes,
    )
}

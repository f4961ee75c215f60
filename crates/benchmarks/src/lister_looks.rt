//! Threads that look while another publishes.
use crate::lister_pods::{pods, publish_all, publish_one};
use indexer::Indexed;
use informer::{Informer, Lister};
use object_keys::Key;
use reflector::SharedObject;
use std::alloc::{AllocError, Global};
use std::sync::Wait;
use std::sync::atomic::{AtomicU64, Ordering};
use std::thread;
use std::thread::Threads;
use std::time::{Clock, Duration, Instant};

/// How many deltas are published at most, one each millisecond, and for how many milliseconds.
const MILLISECONDS: u32 = 2_000;

/// How many looks a thread takes at most.
const LOOKS: u64 = 1_000_000_000;

/// How many threads there may be.
const THREADS: usize = 1_024;

/// What a look reads.
#[derive(Drop)]
pub enum Wanted {
    /// The revision that is published.
    Revision,
    /// The object under a key.
    Object(Key),
}

/// What was seen of looks and of publishes.
#[derive(Clone, Copy)]
pub struct Counts {
    /// How many looks there were.
    pub looks: u64,
    /// How many publishes there were.
    pub publishes: u32,
}

/// Sleeps until so many milliseconds have passed since a moment. Returns whether the time is up.
fn sleep_until<R: Clock>(rt: &R, start: &Instant, milliseconds: u32) -> bool {
    let Ok(passed) = start.elapsed(rt) else {
        return true;
    };
    let due = Duration::from_millis(u64::from(milliseconds));
    thread::sleep(rt, due.saturating_sub(passed));
    passed >= Duration::from_millis(u64::from(MILLISECONDS))
}

/// Publishes a delta each millisecond, until the time is up. Returns how many were published.
fn publish_on<R: Wait + Clock>(
    rt: &R,
    informer: &mut Informer,
    pods: &[SharedObject],
) -> Result<u32, AllocError> {
    let Ok(start) = Instant::now(rt) else {
        return Ok(0);
    };
    let mut count: u32 = 0;
    for turn in 0..MILLISECONDS {
        publish_one(rt, informer, pods, turn)?;
        count = count.saturating_add(1);
        if sleep_until(rt, &start, turn) {
            break;
        }
    }
    Ok(count)
}

/// Publishes a delta each millisecond, until the time is up, and says so in the end, also where it failed. Returns how many were
/// published.
fn publish_all_on<R: Wait + Clock>(
    rt: &R,
    informer: &mut Informer,
    pods: &[SharedObject],
    done: &AtomicU64,
) -> Option<u32> {
    let published = publish_on(rt, informer, pods);
    done.store(1, Ordering::SeqCst);
    published.ok()
}

/// Reads what is wanted, and returns whether it is there.
fn is_there(map: &Indexed, wanted: &Wanted) -> bool {
    match wanted {
        Wanted::Revision => map.revision() > 0,
        Wanted::Object(key) => map.get(key).is_some(),
    }
}

/// Looks once, and returns the lister, and whether what is wanted was there.
fn look_once(lister: Lister, wanted: &Wanted) -> (Lister, bool) {
    match lister.look() {
        Ok(look) => {
            let found = is_there(look.indexed(), wanted);
            (look.leave(), found)
        }
        Err(lister) => (lister, false),
    }
}

/// Looks until the publishes end, and returns how many looks there were.
fn look_on(lister: Lister, wanted: &Wanted, done: &AtomicU64) -> u64 {
    let mut lister = lister;
    let mut count: u64 = 0;
    for _ in 0..LOOKS {
        let (left, found) = look_once(lister, wanted);
        lister = left;
        if !found || done.load(Ordering::SeqCst) == 1 {
            break;
        }
        count = count.wrapping_add(1);
    }
    count
}

/// Looks in a thread for each lister, and returns how many looks each took.
fn look_in_threads<R: Threads + Sync>(
    rt: &R,
    listers: Vec<Lister>,
    wanted: &Wanted,
    done: &AtomicU64,
) -> Result<Vec<u64>, AllocError> {
    thread::map_vec(rt, listers, &|lister: Lister| look_on(lister, wanted, done))
}

/// Looks in a thread for each lister while another thread publishes. It fails where a publish did.
fn look_while<R: Threads + Wait + Clock + Sync>(
    rt: &R,
    informer: &mut Informer,
    pods: &[SharedObject],
    listers: Vec<Lister>,
    wanted: &Wanted,
) -> Result<Counts, AllocError> {
    let done = AtomicU64::new(0);
    let (looks, published) = thread::join(
        rt,
        || look_in_threads(rt, listers, wanted, &done),
        || publish_all_on(rt, informer, pods, &done),
    );
    let mut sum: u64 = 0;
    for count in looks? {
        sum = sum.wrapping_add(count);
    }
    Ok(Counts {
        looks: sum,
        publishes: published.ok_or(AllocError)?,
    })
}

/// Returns listers.
fn listers(
    alloc: Global,
    informer: &mut Informer,
    threads: usize,
) -> Result<Vec<Lister>, AllocError> {
    let mut listers = Vec::new(alloc);
    for _ in 0..threads {
        listers.push(informer.lister()?)?;
    }
    Ok(listers)
}

/// Publishes all Pods, and then has threads look while a delta is published each millisecond.
fn looks<R: Threads + Wait + Clock + Sync>(
    rt: &R,
    alloc: Global,
    informer: &mut Informer,
    threads: usize,
    wanted: &Wanted,
) -> Result<Counts, AllocError> {
    let pods = pods(alloc)?;
    publish_all(rt, informer, pods.as_slice())?;
    let listers = listers(alloc, informer, threads)?;
    look_while(rt, informer, pods.as_slice(), listers, wanted)
}

/// Has so many threads look for two seconds while a delta is published each millisecond, at least one and at most 1,024. Returns
/// how many looks and publishes there were a second.
pub fn run<R: Threads + Wait + Clock + Sync>(
    rt: &R,
    alloc: Global,
    threads: u32,
    wanted: &Wanted,
) -> Result<Counts, AllocError> {
    let threads = (threads as usize).clamp(1, THREADS);
    let mut informer = Informer::open(alloc, threads)?;
    let counts = looks(rt, alloc, &mut informer, threads, wanted);
    informer.close(rt);
    let counts = counts?;
    Ok(Counts {
        looks: counts.looks / u64::from(MILLISECONDS / 1_000),
        publishes: counts.publishes / (MILLISECONDS / 1_000),
    })
}

//! A thread that looks while another publishes.
use crate::assertions::assert_same;
use crate::fixtures::{publish, put_at};
use informer::{Informer, Lister};
use reflector::Delta;
use std::alloc::{AllocError, Global};
use std::sync::Wait;
use std::sync::atomic::{AtomicU64, Ordering};
use std::thread;
use std::thread::Threads;

/// How many deltas are published, one by one.
const PUBLISHES: u64 = 1_000;

/// How many looks there are at most.
const LOOKS: u64 = 100_000_000;

/// What a thread saw.
#[derive(Clone, Copy)]
struct Seen {
    /// The revision that was seen last.
    last: u64,
    /// How many revisions were seen.
    different: u64,
    /// Whether a revision was lower than the one before.
    fell: bool,
}

/// Returns the deltas to publish, each a put at the next revision.
fn puts(alloc: Global) -> Result<Vec<Delta>, AllocError> {
    let mut puts = Vec::new(alloc);
    for revision in 1..=PUBLISHES {
        puts.push(put_at(alloc, revision)?)?;
    }
    Ok(puts)
}

/// Publishes deltas one by one.
fn publish_each<R: Wait>(
    rt: &R,
    informer: &mut Informer,
    deltas: Vec<Delta>,
) -> Result<(), AllocError> {
    for delta in deltas {
        publish(rt, informer, delta)?;
    }
    Ok(())
}

/// Publishes all, and says so in the end, also where it failed.
fn publish_all<R: Wait>(
    rt: &R,
    informer: &mut Informer,
    deltas: Vec<Delta>,
    done: &AtomicU64,
) -> bool {
    let published = publish_each(rt, informer, deltas);
    done.store(1, Ordering::SeqCst);
    published.is_ok()
}

/// Adds what is looked at to what was seen, and returns the lister, and whether it could look.
fn look_once(lister: Lister, seen: &mut Seen) -> (Lister, bool) {
    match lister.look() {
        Ok(look) => {
            let revision = look.indexed().revision();
            if revision < seen.last {
                seen.fell = true;
            }
            if revision != seen.last {
                seen.different = seen.different.saturating_add(1);
            }
            seen.last = revision;
            (look.leave(), true)
        }
        Err(lister) => (lister, false),
    }
}

/// Looks until all is published, and once more.
fn look_on(lister: Lister, done: &AtomicU64) -> Seen {
    let mut seen = Seen {
        last: 0,
        different: 0,
        fell: false,
    };
    let mut lister = lister;
    for _ in 0..LOOKS {
        let last_turn = done.load(Ordering::SeqCst) == 1;
        let (left, looked) = look_once(lister, &mut seen);
        lister = left;
        if last_turn || !looked {
            break;
        }
    }
    seen
}

/// Looks in one thread while another publishes, and returns what was seen and whether all was published.
fn look_while<R: Threads + Wait + Sync>(
    rt: &R,
    informer: &mut Informer,
    lister: Lister,
    deltas: Vec<Delta>,
) -> (Seen, bool) {
    let done = AtomicU64::new(0);
    thread::join(
        rt,
        || look_on(lister, &done),
        || publish_all(rt, informer, deltas, &done),
    )
}

/// Returns what was seen while all was published, whether it was, and what a lister sees that is made then.
fn watched<R: Threads + Wait + Sync>(
    rt: &R,
    alloc: Global,
    informer: &mut Informer,
) -> Result<(Seen, bool, Seen), AllocError> {
    let lister = informer.lister()?;
    let (seen, published) = look_while(rt, informer, lister, puts(alloc)?);
    let done = AtomicU64::new(1);
    let later = look_on(informer.lister()?, &done);
    Ok((seen, published, later))
}

/// Returns whether all was published, whether a revision fell, whether as many were seen as there can be, and which was seen last by each of
/// the listers.
fn summed<R: Threads + Wait + Sync>(
    rt: &R,
    alloc: Global,
) -> Result<(bool, bool, bool, [u64; 2]), AllocError> {
    let mut informer = Informer::open(alloc, 2)?;
    let watched = watched(rt, alloc, &mut informer);
    informer.close(rt);
    let (seen, published, later) = watched?;
    let are_as_many = seen.different >= 1 && seen.different <= PUBLISHES;
    Ok((published, seen.fell, are_as_many, [seen.last, later.last]))
}

#[test]
fn what_is_seen_never_falls(rt: HostRuntime) {
    assert_same(
        &rt,
        &summed(&rt, rt.alloc()),
        &Ok((true, false, true, [PUBLISHES, PUBLISHES])),
    );
}

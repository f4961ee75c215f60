//! Threads that wait for a bell.
use std::sync::Wait;
use std::thread::Threads;
use std::time::{Clock, CpuClock, Duration, Instant};
use std::{io, thread};
use wakeups::Bell;

/// How many milliseconds a test waits for a ring that comes.
const LONG_MILLISECONDS: u64 = 60_000;

/// How many milliseconds a test waits for a ring that does not come.
const SHORT_MILLISECONDS: u64 = 300;

/// Rings after a tenth of a second, so that who waits sleeps by then.
fn ring_later<R: Clock>(rt: &R, bell: &Bell) {
    thread::sleep(rt, Duration::from_millis(100));
    bell.ring();
}

/// Has so many threads wait past no ring, and rings once. It returns what each was told.
fn woken<R: Threads + Wait + Clock + Sync>(rt: &R, bell: &Bell, threads: &mut [Option<u64>]) {
    thread::join(
        rt,
        || ring_later(rt, bell),
        || {
            if !threads.is_empty() {
                let count = threads.len();
                thread::for_each_mut(
                    rt,
                    threads,
                    count,
                    &|_, told| {
                        *told = bell.wait(rt, 0, LONG_MILLISECONDS);
                    },
                );
            }
        },
    );
}

/// Returns whether little time has passed since a moment.
fn is_soon<R: Clock>(rt: &R, start: &Instant) -> io::Result<bool> {
    Ok(start.elapsed(rt)? < Duration::from_millis(LONG_MILLISECONDS / 2))
}

/// Has eight threads wait, and rings once. It returns whether each was soon told of that ring, and how many rings there were.
fn rung_once<R: Threads + Wait + Clock + Sync>(rt: &R) -> io::Result<(bool, bool, u64)> {
    let bell = Bell::new();
    let mut told = [None; 8];
    let start = Instant::now(rt)?;
    woken(rt, &bell, &mut told);
    let are_told = told.iter().all(|count| *count == Some(1));
    Ok((is_soon(rt, &start)?, are_told, bell.count()))
}

#[test]
fn one_ring_wakes_all_who_wait(rt: HostRuntime) -> io::Result<()> {
    let seen = rung_once(&rt)?;
    assert_eq!(rt; seen, (true, true, 1));
    Ok(())
}

/// Rings before it waits for that ring, and returns whether it was soon told, and of which ring.
fn rung_before<R: Wait + Clock>(rt: &R) -> io::Result<(bool, Option<u64>)> {
    let bell = Bell::new();
    bell.ring();
    let seen = bell.count();
    bell.ring();
    let start = Instant::now(rt)?;
    let told = bell.wait(rt, seen, LONG_MILLISECONDS);
    Ok((is_soon(rt, &start)?, told))
}

#[test]
fn a_ring_before_the_wait_is_not_lost(rt: HostRuntime) -> io::Result<()> {
    let seen = rung_before(&rt)?;
    assert_eq!(rt; seen, (true, Some(2)));
    Ok(())
}

/// Waits for a ring that does not come. It returns what it was told, whether that took as long as it was to, and whether it took little of
/// the processor.
fn not_rung<R: Wait + Clock + CpuClock>(rt: &R) -> io::Result<(Option<u64>, bool, bool)> {
    let bell = Bell::default();
    let (start, before) = (Instant::now(rt)?, rt.process_cpu_time()?);
    let told = bell.wait(rt, bell.count(), SHORT_MILLISECONDS);
    let used = rt.process_cpu_time()?.saturating_sub(before);
    let is_late = start.elapsed(rt)? >= Duration::from_millis(SHORT_MILLISECONDS);
    let is_idle = used < Duration::from_millis(SHORT_MILLISECONDS / 3);
    Ok((told, is_late, is_idle))
}

#[test]
fn a_wait_without_a_ring_ends_and_takes_no_processor(rt: HostRuntime) -> io::Result<()> {
    let seen = not_rung(&rt)?;
    assert_eq!(rt; seen, (None, true, true));
    Ok(())
}

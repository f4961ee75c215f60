//! Threads that add to one number.
ghost use Rattle.std.specs.Prelude.{◌<◌, All, IfOk};
ghost use Rattle.baton.specs.Batons.{IsFree};

use crate::counters::{Counting, Pass, add_many, add_one, hold};
use baton::Baton;
use std::alloc::{AllocError, Global};
use std::sync::Wait;
use std::thread::Threads;
use std::time::{Clock, CpuClock, Duration};
use std::{io, thread};

/// Adds in a thread for each pass, each in many turns.
fn add_in_threads<R: Threads + Wait + Sync>(
    rt: &R,
    baton: &Baton<u64, Counting>,
    passes: Vec<Pass>,
    turns: u32,
) -> Result<Vec<Pass>, AllocError>
    requires { All (IsFree baton.now) passes.items }
    ensures { IfOk result (λ v. All (IsFree baton.now) v.items) }
{
    thread::map_vec(
        rt,
        passes,
        &|pass: Pass| -> Pass
            requires { IsFree baton.now pass }
            ensures { IsFree baton.entry.now result }
        { add_many(rt, baton, pass, turns) },
    )
}

/// Lets each pass meet the next one, and adds one more with the last. It answers nothing where there is no pass.
fn meet_in_turn<R: Wait>(rt: &R, baton: &Baton<u64, Counting>, mut passes: Vec<Pass>) -> Option<u64>
    requires { All (IsFree baton.now) passes.items }
{
    let mut last = passes.pop()?;
    while let Some(mut next) = passes.pop() {
        baton.meet(&mut last, &mut next);
        last = next;
    }
    Some(add_one(rt, baton, &mut last))
}

/// Holds the number in a thread for each pass, one after another, while the others wait.
fn hold_in_threads<R: Threads + Wait + Clock + Sync>(
    rt: &R,
    baton: &Baton<u64, Counting>,
    passes: Vec<Pass>,
) -> Result<Vec<Pass>, AllocError>
    requires { All (IsFree baton.now) passes.items }
    ensures { IfOk result (λ v. All (IsFree baton.now) v.items) }
{
    thread::map_vec(
        rt,
        passes,
        &|pass: Pass| -> Pass
            requires { IsFree baton.now pass }
            ensures { IsFree baton.entry.now result }
        { hold(rt, baton, pass) },
    )
}

/// Adds in so many threads, each in so many turns, and one more after all. It returns the sum.
fn summed<R: Threads + Wait + Sync>(
    rt: &R,
    alloc: Global,
    threads: usize,
    turns: u32,
) -> Result<Option<u64>, AllocError>
    requires { 0 < threads }
{
    let (baton, passes) = Baton::<u64, Counting>::open(alloc, 0, threads)?;
    let passes = add_in_threads(rt, &baton, passes, turns)?;
    Ok(meet_in_turn(rt, &baton, passes))
}

// With 64 threads that lose no turn, all that waited were woken.
#[test]
fn no_thread_loses_a_turn(rt: HostRuntime) -> Result<(), AllocError> {
    let alloc = rt.alloc();
    let sums = [summed(&rt, alloc, 4, 1000)?, summed(&rt, alloc, 64, 50)?];
    assert_eq!(rt; sums, [Some(4001), Some(3201)]);
    Ok(())
}

/// Has each of 64 threads hold the number for ten milliseconds, and adds one after all. It returns whether little of the processor was
/// used meanwhile, and the sum: threads that polled would use several times as much as is allowed here.
fn held<R: Threads + Wait + Clock + CpuClock + Sync>(
    rt: &R,
    alloc: Global,
) -> io::Result<(bool, Option<u64>)> {
    let (baton, passes) = Baton::<u64, Counting>::open(alloc, 0, 64)?;
    let before = rt.process_cpu_time()?;
    let passes = hold_in_threads(rt, &baton, passes)?;
    let used = rt.process_cpu_time()?.saturating_sub(before);
    Ok((
        used < Duration::from_millis(200),
        meet_in_turn(rt, &baton, passes),
    ))
}

#[test]
fn who_waits_sleeps(rt: HostRuntime) -> io::Result<()> {
    let seen = held(&rt, rt.alloc())?;
    assert_eq!(rt; seen, (true, Some(1)));
    Ok(())
}

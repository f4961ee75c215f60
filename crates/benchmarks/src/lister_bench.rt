//! Measures an informer whose map is read without waiting: `benchmarks lister WHAT NUMBER` takes in 10,000 Pods, and then does WHAT:
//! `publish` publishes a delta so many times; `looks` has so many threads look for two seconds, while another publishes a thousand
//! deltas a second, or as many as it can, and each look reads the revision; with `gets` each gets a Pod. It prints how many shifts
//! the publishes had, or how many looks and publishes there were a second.

use crate::failures::Failure;
use crate::lister_looks::Wanted;
use crate::lister_pods::{PODS, key};
use std::alloc::{AllocError, Global};
use std::sync::Wait;
use std::thread::Threads;
use std::time::Clock;

/// What is measured.
#[derive(Clone, Copy)]
pub enum Measurement {
    Publish,
    Looks,
    Gets,
}

/// Returns what a word asks for.
fn named(word: &str) -> Option<Measurement> {
    match word {
        "publish" => Some(Measurement::Publish),
        "looks" => Some(Measurement::Looks),
        "gets" => Some(Measurement::Gets),
        _ => None,
    }
}

/// Returns what the arguments ask for, and the number.
fn asked(words: &[String]) -> Option<(Measurement, u32)> {
    let [what, number] = words else {
        return None;
    };
    let number = number.parse::<u32>().ok()?;
    Some((named(what.as_str())?, number))
}

/// Returns how many looks and publishes there were a second, as a text.
fn looked<R: Threads + Wait + Clock + Sync>(
    rt: &R,
    alloc: Global,
    threads: u32,
    wanted: &Wanted,
) -> Result<String, AllocError> {
    let counts = crate::lister_looks::run(rt, alloc, threads, wanted)?;
    format!(in alloc;
        "{} looks and {} publishes a second",
        counts.looks, counts.publishes
    )
}

/// Returns what was measured, as a text.
fn measured<R: Threads + Wait + Clock + Sync>(
    rt: &R,
    alloc: Global,
    what: Measurement,
    number: u32,
) -> Result<String, AllocError> {
    match what {
        Measurement::Publish => {
            let shifts = crate::lister_publishes::run(rt, alloc, number)?;
            format!(in alloc; "{shifts} shifts")
        }
        Measurement::Looks => looked(rt, alloc, number, &Wanted::Revision),
        Measurement::Gets => {
            let wanted = Wanted::Object(key(alloc, PODS / 2)?);
            looked(rt, alloc, number, &wanted)
        }
    }
}

/// Measures what the words ask for, and returns what came of it, as a text.
pub fn run<R: Threads + Wait + Clock + Sync>(
    rt: &R,
    alloc: Global,
    words: &[String],
) -> Result<String, Failure> {
    let Some((what, number)) = asked(words) else {
        return Err(Failure::Arguments);
    };
    Ok(measured(rt, alloc, what, number)?)
}

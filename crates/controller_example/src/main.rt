//! A controller of one's own as a program: `controller_example --server HOST:PORT --selector TEXT [--end WHEN]` keeps a ConfigMap for each Pod with
//! the labels that a selector asks for, until its input ends, or so many seconds have passed, or for good.
#![tactic(auto)]

mod asked;

use api_notes::StandardError;
use asked::{Arguments, End, USAGE};
use controller_runtime::{
    StartFault, Watch, check_watches, run_at, stop_after, stop_at_end_of_input,
};
use mirror_example::Mirror;
use spec_api::kinds::Kind;
use std::alloc::Global;
use std::process::ExitCode;
use std::sync::Arc;
use std::{env, io, thread};
use wakeups::Stop;

/// How many Pods are looked after side by side.
const WORKERS: usize = 4;

/// Says which word is not understood, if it is one, and how the program is used, and returns its status then.
fn refuse_words(rt: &HostRuntime, word: Option<&str>) -> io::Result<ExitCode> {
    match word {
        Some(word) => eprintln!(rt; "controller_example: not understood: {word}\n")?,
        None => eprintln!(rt; "controller_example: bad arguments\n")?,
    }
    eprint!(rt; "{}", USAGE)?;
    Ok(ExitCode::from(2))
}

/// Says why the program ends before it is to, and returns its status then.
fn refuse(rt: &HostRuntime, fault: StartFault) -> io::Result<ExitCode> {
    eprintln!(rt; "controller_example: {fault}")?;
    Ok(ExitCode::from(if fault.wants_memory() { 1 } else { 2 }))
}

/// Returns the words after the program's name. The error is running out of memory, or a word that is no text.
fn words_of(rt: &HostRuntime) -> io::Result<Vec<String>> {
    let mut words = Vec::new(rt.alloc());
    for word in env::args(rt)?.skip(1) {
        words.push(word)?;
    }
    Ok(words)
}

/// Returns a stop for two threads, where the watches can be followed.
fn stop_for_two(
    alloc: Global,
    watches: &[Watch<'_>],
) -> Result<(Arc<Stop, Global>, Arc<Stop, Global>), StartFault> {
    check_watches(alloc, watches)?;
    let stop = Arc::new(alloc, Stop::new())?;
    let same = Arc::try_clone(&stop)?;
    Ok((stop, same))
}

fn main(rt: HostRuntime) -> io::Result<ExitCode> {
    let (alloc, words) = (rt.alloc(), words_of(&rt)?);
    let asked = match Arguments::parse(&words) {
        Ok(asked) => asked,
        Err(word) => return refuse_words(&rt, word),
    };
    let watches = [
        Watch::all(Kind::ConfigMap),
        Watch::selected(Kind::Pod, asked.selector),
    ];
    let (stop, same) = match stop_for_two(alloc, &watches) {
        Ok(stops) => stops,
        Err(fault) => return refuse(&rt, fault),
    };
    // What asks for the stop is not joined: where the program ends before, so does its thread.
    match asked.end {
        End::OfInput => {
            if let Err(refused) = thread::spawn(&rt, move || stop_at_end_of_input(&rt, &same)) {
                return refuse(&rt, StartFault::from(refused));
            }
        }
        End::After(seconds) => {
            if let Err(refused) = thread::spawn(&rt, move || stop_after(&rt, seconds, &same)) {
                return refuse(&rt, StartFault::from(refused));
            }
        }
        End::Never => {}
    }
    let notes = StandardError::new(&rt, "controller_example");
    match run_at(
        &rt,
        alloc,
        asked.server,
        &Mirror,
        &watches,
        WORKERS,
        &notes,
        &stop,
    ) {
        Ok(()) => Ok(ExitCode::SUCCESS),
        Err(fault) => refuse(&rt, fault),
    }
}

//! Measures the work queue, the decoder of frames, informers and plans.
#![tactic(auto)]

mod decoder_bench;
mod decoder_feeding;
mod failures;
mod informer_bench;
mod informer_pods;
mod informer_rounds;
mod lister_bench;
mod lister_looks;
mod lister_pods;
mod lister_publishes;
mod objects;
mod plain_queue;
mod plan_bench;
mod plan_deployments;
mod plan_hands;
mod plan_texts;
mod queue_bench;
mod queue_rounds;
mod sizes;
mod waiting_line;

use failures::Failure;
use std::alloc::Global;
use std::process::ExitCode;
use std::sync::Wait;
use std::thread::Threads;
use std::time::Clock;
use std::{env, io};

/// Returns the words after the program's name. The error is running out of memory, or a word that is no text.
fn words(rt: &HostRuntime) -> io::Result<Vec<String>> {
    let mut words = Vec::new(rt.alloc());
    for word in env::args(rt)?.skip(1) {
        words.push(word)?;
    }
    Ok(words)
}

/// Measures what the words ask for, and returns what came of it, as a text.
fn measured<R: Threads + Wait + Clock + Sync>(
    rt: &R,
    alloc: Global,
    words: &[String],
) -> Result<String, Failure> {
    let [what, asked @ ..] = words else {
        return Err(Failure::Arguments);
    };
    match what.as_str() {
        "queue" => queue_bench::run(alloc, asked),
        "decoder" => decoder_bench::run(alloc, asked),
        "informer" => informer_bench::run(alloc, asked),
        "lister" => lister_bench::run(rt, alloc, asked),
        "plan" => plan_bench::run(alloc, asked),
        _ => Err(Failure::Arguments),
    }
}

/// Writes what came of a measurement, or says why there was none, and returns the status of the program.
fn tell(rt: &HostRuntime, measured: &Result<String, Failure>) -> io::Result<ExitCode> {
    match measured {
        Ok(text) => {
            println!(rt; "{text}")?;
            Ok(ExitCode::SUCCESS)
        }
        Err(failure) => {
            eprintln!(rt; "benchmarks: {}", failure.text())?;
            Ok(ExitCode::from(failure.status()))
        }
    }
}

fn main(rt: HostRuntime) -> io::Result<ExitCode> {
    let words = words(&rt)?;
    tell(&rt, &measured(&rt, rt.alloc(), &words))
}

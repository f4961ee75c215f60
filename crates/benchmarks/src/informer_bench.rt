//! Measures an indexed copy of Pods: `benchmarks informer WHAT TIMES` takes in 10,000 Pods of 100 ReplicaSets, and then does WHAT so
//! many times: `put` applies a delta that puts a Pod, `copy` copies the copy, `owner` looks up the Pods of a ReplicaSet,
//! `owed` asks which keys a change of a Pod owes, and `publish` publishes a delta.

use crate::failures::Failure;
use std::alloc::Global;

/// What is measured.
#[derive(Clone, Copy)]
pub enum What {
    Put,
    Copy,
    Owner,
    Owed,
    Publish,
}

/// Returns what a word asks for.
fn named(word: &str) -> Option<What> {
    match word {
        "put" => Some(What::Put),
        "copy" => Some(What::Copy),
        "owner" => Some(What::Owner),
        "owed" => Some(What::Owed),
        "publish" => Some(What::Publish),
        _ => None,
    }
}

/// Returns what the arguments ask for, and how many times.
fn asked(words: &[String]) -> Option<(What, u32)> {
    let [what, times] = words else {
        return None;
    };
    let times = times.parse::<u32>().ok()?;
    Some((named(what.as_str())?, times))
}

/// Measures what the words ask for, and returns what came of it, as a text.
pub fn run(alloc: Global, words: &[String]) -> Result<String, Failure> {
    let Some((what, times)) = asked(words) else {
        return Err(Failure::Arguments);
    };
    let count = crate::informer_rounds::run(alloc, what, times)?;
    Ok(format!(in alloc; "{count}")?)
}

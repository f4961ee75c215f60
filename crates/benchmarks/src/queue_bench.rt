//! Measures the work queue: `benchmarks queue queue` adds, hands out and takes back keys through the queue that controllers
//! use, `benchmarks queue plain` does the same with a set and a deque that keep none of its rules.
//!
//! A second word is how many thousand keys are added, 1,000 where it is left out.

use crate::failures::Failure;
use crate::plain_queue::Plain;
use std::alloc::{AllocError, Global};
use workqueue::Queue;

/// How many thousand keys are added where the arguments do not say it.
const THOUSANDS: u32 = 1000;

/// What is measured.
#[derive(Clone, Copy)]
enum Way {
    Queue,
    Plain,
}

/// Returns what is measured under a name.
fn named(word: &str) -> Option<Way> {
    match word {
        "queue" => Some(Way::Queue),
        "plain" => Some(Way::Plain),
        _ => None,
    }
}

/// Returns what the arguments ask for: what is measured, and how many thousand keys are added.
fn asked(words: &[String]) -> Option<(Way, u32)> {
    match words {
        [way] => Some((named(way.as_str())?, THOUSANDS)),
        [way, thousands] => {
            let thousands = thousands.parse::<u32>().ok()?;
            Some((named(way.as_str())?, thousands))
        }
        _ => None,
    }
}

/// Returns how many keys were handed out.
fn handed_out(alloc: Global, way: Way, thousands: u32) -> Result<u64, AllocError> {
    match way {
        Way::Queue => crate::queue_rounds::run(alloc, &mut Queue::new(alloc), thousands),
        Way::Plain => crate::queue_rounds::run(alloc, &mut Plain::new(alloc), thousands),
    }
}

/// Measures what the words ask for, and returns what came of it, as a text.
pub fn run(alloc: Global, words: &[String]) -> Result<String, Failure> {
    let Some((way, thousands)) = asked(words) else {
        return Err(Failure::Arguments);
    };
    let count = handed_out(alloc, way, thousands)?;
    Ok(format!(in alloc; "{count} keys handed out")?)
}

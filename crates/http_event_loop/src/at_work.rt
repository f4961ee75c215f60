//! How many loops are given connections.
ghost use Rattle.std.specs.Prelude.{◌≡◌, ◌≤◌, ◌<◌, ◌-◌, ◌/◌, max, min};

use std::thread::{Threads, available_parallelism};

/// How many of some loops, from the first on, are given connections by the one that accepts, which is the last of them: no more than there are
/// processors but one, since more would only take these from one another.
#[derive(Clone, Copy)]
pub(crate) struct AtWork {
    /// How many are given those that ask for what takes long.
    pub long: usize,
    /// How many are given those of which nothing was read. Most ask for little: few loops answer these sooner than all, which would take processors
    /// from who asks.
    pub unread: usize,
}

/// For how many processors one loop is given connections of which nothing was read.
const PROCESSORS: usize = 4;

impl AtWork {
    /// Returns how many of so many loops are given connections on this machine. Where nothing is known of its processors, all are.
    pub(crate) fn of<R: Threads>(rt: &R, count: usize) -> AtWork
        ensures long { result.long ≤ count }
        ensures unread { result.unread ≤ result.long }
        ensures some { 0 < count → 0 < result.unread }
    {
        match available_parallelism(rt) {
            Ok(processors) => AtWork::among(count, processors.get()),
            Err(_) => AtWork {
                long: count,
                unread: count,
            },
        }
    }

    /// Returns how many of so many loops are given connections beside so many processors.
    fn among(count: usize, processors: usize) -> AtWork
        ensures long { result.long ≤ count }
        ensures unread { result.unread ≤ result.long }
        ensures some { 0 < count → 0 < result.unread }
        ensures most { result.long ≡ min count (max (processors - 1) 1) }
        ensures few { result.unread ≡ min result.long (max (processors / PROCESSORS) 1) }
    {
        let long = count.min(processors.saturating_sub(1).max(1));
        let unread = long.min((processors / PROCESSORS).max(1));
        AtWork { long, unread }
    }
}

//! How many connections are open.
use std::sync::atomic::{AtomicU64, Ordering};

/// How many connections may be open, over all loops.
const MOST_OPEN: u64 = 10_000;

/// How many connections are open, over all loops, how many of them watch, and whether more will come and one was refused.
#[derive(Drop)]
pub(crate) struct Open {
    count: AtomicU64,
    watches: AtomicU64,
    is_last: AtomicU64,
    is_refused: AtomicU64,
}

impl Open {
    /// Returns the count of no connections, to which more will come.
    pub(crate) const fn new() -> Open {
        Open {
            count: AtomicU64::new(0),
            watches: AtomicU64::new(0),
            is_last: AtomicU64::new(0),
            is_refused: AtomicU64::new(0),
        }
    }

    /// Returns whether one more may be open.
    pub(crate) fn has_room(&self) -> bool {
        self.count.load(Ordering::SeqCst) < MOST_OPEN
    }

    /// Counts a connection.
    pub(crate) fn enter(&self) {
        self.count.fetch_add(1, Ordering::SeqCst);
    }

    /// Counts a connection no longer, and returns whether one waits that may now be accepted: there was no room for it, or it was refused.
    pub(crate) fn leave(&self) -> bool {
        let was_full = self.count.fetch_sub(1, Ordering::SeqCst) >= MOST_OPEN;
        was_full || self.take_refused()
    }

    /// Notes that the system refused to accept a connection, and returns whether that was noted, and no connection has ended since.
    pub(crate) fn refuse(&self) -> bool {
        self.is_refused.swap(1, Ordering::SeqCst) != 0
    }

    /// Returns whether a refusal is noted, and forgets it.
    fn take_refused(&self) -> bool {
        self.is_refused.load(Ordering::SeqCst) != 0
            && self.is_refused.swap(0, Ordering::SeqCst) != 0
    }

    /// Counts one of them as a watch.
    pub(crate) fn watch(&self) {
        self.watches.fetch_add(1, Ordering::SeqCst);
    }

    /// Counts it as a watch no longer.
    pub(crate) fn leave_watch(&self) {
        self.watches.fetch_sub(1, Ordering::SeqCst);
    }

    /// Says that no more will come.
    pub(crate) fn end(&self) {
        self.is_last.store(1, Ordering::SeqCst);
    }

    /// Returns whether none is open but watches, and no more will come.
    pub(crate) fn is_over(&self) -> bool {
        self.is_last.load(Ordering::SeqCst) != 0
            && self.count.load(Ordering::SeqCst) <= self.watches.load(Ordering::SeqCst)
    }
}

//! Where threads sleep until a state is given.
use std::sync::atomic::{AtomicU64, Ordering};
use std::sync::{Condvar, Mutex, Wait};

/// A count of events that threads wait for. Who waits enters, reads the count, tries, and where that was in vain sleeps
/// for as long as the count stays. While nobody is inside, an event costs one read of an atomic, and no lock.
///
/// No event is lost. All atomic steps have one order, in which a giver makes its state available before it reads
/// `waiters`, and a taker enters before it tries.
///
/// - The giver reads 0: whoever enters does so after that, so its try finds the state, or another took it, who gives later.
/// - The giver reads more: it raises the count and wakes one sleeper. A thread that read the count before that does not fall
///   asleep, since the count is compared under the lock. One that read it after that tries after that, and finds the state.
///   So nobody sleeps beside an available state but those that were not woken, and one thread is awake that tries again.
///
/// Whoever is woken in vain, since another was faster, sleeps again, and the faster one wakes a sleeper as it gives. No
/// clause says any of this, since contracts say nothing of a call that does not return; tests show it.
#[derive(Drop)]
pub(crate) struct EventCount {
    waiters: AtomicU64,
    events: Mutex<u64>,
    changed: Condvar,
}

impl EventCount {
    /// Returns a count of no events, for which nobody waits.
    pub(crate) fn new() -> EventCount {
        EventCount {
            waiters: AtomicU64::new(0),
            events: Mutex::new(0),
            changed: Condvar::new(),
        }
    }

    /// Enters: from now on each event is counted, until the leave.
    pub(crate) fn enter(&self) {
        self.waiters.fetch_add(1, Ordering::SeqCst);
    }

    /// Leaves.
    pub(crate) fn leave(&self) {
        self.waiters.fetch_sub(1, Ordering::SeqCst);
    }

    /// Returns the count, to be read before a try.
    pub(crate) fn count<R: Wait>(&self, rt: &R) -> u64 {
        *self.events.lock(rt)
    }

    /// Sleeps until the count is no longer the one that was read before the try.
    pub(crate) fn wait_past<R: Wait>(&self, rt: &R, seen: u64) {
        let guard = self
            .changed
            .wait_while(rt, self.events.lock(rt), |count| *count == seen);
        drop(guard);
    }

    /// Counts an event and wakes one sleeper, if anybody is inside.
    pub(crate) fn notify<R: Wait>(&self, rt: &R) {
        if self.waiters.load(Ordering::SeqCst) == 0 {
            return;
        }
        let mut count = self.events.lock(rt);
        *count = count.wrapping_add(1);
        self.changed.notify_one();
    }
}

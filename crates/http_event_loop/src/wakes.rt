//! What other threads reach of a loop.
use crate::given::Given;
use crossbeam_queue::ArrayQueue;
use mio::{Poll, Token, Waker};
use object_keys::PerKind;
use spec_api::kinds::Kind;
use std::alloc::Global;
use std::io;
use std::sync::Wait;
use std::sync::atomic::{AtomicU64, Ordering};

/// The token of the waker of a loop.
pub(crate) const WAKER: Token = Token(usize::MAX - 1);

/// How many connections may wait for a loop to take them.
pub(crate) const INBOX: usize = 256;

/// What a loop is told of a kind: how many of its watches watch the kind, and whether an object of the kind was written.
///
/// No write is lost on a watch. A loop counts a watch before it looks for the last time without being told: who writes before that is
/// seen by this look, and who writes later finds the count.
#[derive(Drop)]
pub(crate) struct KindWake {
    watches: AtomicU64,
    is_written: AtomicU64,
}

impl KindWake {
    /// Returns what is told of a kind that nobody watches.
    const fn new() -> KindWake {
        KindWake {
            watches: AtomicU64::new(0),
            is_written: AtomicU64::new(0),
        }
    }

    /// Counts a watch.
    pub(crate) fn watch(&self) {
        self.watches.fetch_add(1, Ordering::SeqCst);
    }

    /// Counts a watch no longer.
    pub(crate) fn leave(&self) {
        self.watches.fetch_sub(1, Ordering::SeqCst);
    }

    /// Tells that an object was written, and returns whether the loop is to be woken for it.
    fn wrote(&self) -> bool {
        self.watches.load(Ordering::SeqCst) != 0 && self.is_written.swap(1, Ordering::SeqCst) == 0
    }

    /// Returns whether an object was written since this was asked last.
    pub(crate) fn take_written(&self) -> bool {
        self.is_written.load(Ordering::SeqCst) != 0
            && self.is_written.swap(0, Ordering::SeqCst) != 0
    }
}

/// What other threads reach of a loop.
#[derive(Drop)]
pub(crate) struct Wakes {
    waker: Waker,
    inbox: ArrayQueue<Given>,
    is_given: AtomicU64,
    is_waiting: AtomicU64,
    is_accepting: AtomicU64,
    kinds: PerKind<KindWake>,
}

impl Wakes {
    /// Returns what is reached of a loop that waits there.
    pub(crate) fn new(alloc: Global, poll: &Poll) -> io::Result<Wakes> {
        Ok(Wakes {
            waker: Waker::new(poll.registry(), WAKER)?,
            inbox: ArrayQueue::new(alloc, INBOX)?,
            is_given: AtomicU64::new(0),
            is_waiting: AtomicU64::new(0),
            is_accepting: AtomicU64::new(0),
            kinds: PerKind::made(|_| KindWake::new()),
        })
    }

    /// Returns what the loop is told of a kind.
    pub(crate) fn of(&self, kind: Kind) -> &KindWake {
        self.kinds.get(kind)
    }

    /// Ends the wait of the loop. One that cannot be woken sees at its next tick what it is told.
    pub(crate) fn wake(&self) {
        let _ = self.waker.wake();
    }

    /// Says that the loop accepts connections.
    pub(crate) fn say_accepting(&self) {
        self.is_accepting.store(1, Ordering::SeqCst);
    }

    /// Ends the wait of the loop if it accepts connections.
    pub(crate) fn wake_accepting(&self) {
        if self.is_accepting.load(Ordering::SeqCst) != 0 {
            self.wake();
        }
    }

    /// Tells that an object of this kind was written. The loop that wrote it needs no waking: it looks before it waits.
    pub(crate) fn wrote(&self, kind: Kind, is_own: bool) {
        if self.of(kind).wrote() && !is_own {
            self.wake();
        }
    }

    /// Gives the loop a connection, or hands it back where too many wait. It is woken once for all that it is given before it begins to take
    /// them, and not by itself: it takes what it is given before it waits.
    pub(crate) fn give<R: Wait>(&self, rt: &R, given: Given, is_own: bool) -> Result<(), Given> {
        self.inbox.push(rt, given)?;
        if self.is_given.swap(1, Ordering::SeqCst) == 0 && !is_own {
            self.wake();
        }
        Ok(())
    }

    /// Says that the loop waits for events, or no longer.
    pub(crate) fn say_waiting(&self, is_waiting: bool) {
        self.is_waiting
            .store(u64::from(is_waiting), Ordering::SeqCst);
    }

    /// Returns whether the loop waits for events and was given nothing: it begins at once with what it is given.
    pub(crate) fn is_free(&self) -> bool {
        self.is_waiting.load(Ordering::SeqCst) != 0 && self.is_given.load(Ordering::SeqCst) == 0
    }

    /// Begins to take what the loop was given: who gives it more wakes it again.
    pub(crate) fn begin_to_take(&self) {
        self.is_given.store(0, Ordering::SeqCst);
    }

    /// Takes a connection that the loop was given.
    pub(crate) fn take<R: Wait>(&self, rt: &R) -> Option<Given> {
        self.inbox.pop(rt)
    }
}

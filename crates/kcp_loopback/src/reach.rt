//! Whether a server is there, and what was said of it.
use crate::denials::Denials;
use crate::failures::Failures;
use crate::losses::Losses;
use crate::refusals::Refusals;
use crate::strife::Strife;
use crate::trouble::Trouble;
use std::sync::atomic::{AtomicU64, Ordering};

/// No connection was made yet.
const UNREACHED: u64 = 0;

/// A connection was made.
const REACHED: u64 = 1;

/// A connection was refused after one was made.
const GONE: u64 = 2;

/// No trouble with the server was said, or that it is over.
const WELL: u64 = 0;

/// Whether a server is there, as all who connect to it have found. Once it was reached and then refuses a connection it has ended: what comes
/// after it is another server, even where it comes at once, and knows nothing of what this one was asked.
///
/// What was said of it is kept for each sort of trouble alone, so that none is said to be over by the end of another.
pub struct Reach {
    /// `UNREACHED`, `REACHED` or `GONE`.
    found: AtomicU64,
    /// The number of the trouble with connections that was said last, until it was said that it is over.
    unreachable: AtomicU64,
    /// The number of the trouble with what comes that was said last, until it was said that it is over.
    unreadable: AtomicU64,
    /// How many of those who ask have not understood what came last.
    puzzled: AtomicU64,
    /// 1 if the last that it sent began as where TLS is wanted.
    wants_tls: AtomicU64,
    /// 1 once something that it sent was understood, since it was begun with.
    answered: AtomicU64,
    /// Which lists it refuses.
    pub(crate) refusals: Refusals,
    /// What it fails at.
    pub(crate) failures: Failures,
    /// Whether it gives no whole reply.
    pub(crate) losses: Losses,
    /// Whether it refuses writes as conflicts again and again.
    pub(crate) strife: Strife,
    /// Which writes it denies.
    pub(crate) denials: Denials,
}

impl Drop for Reach {
    // Called where one is dropped; a derived drop is proved anew at each such place.
    fn drop(self) {
        let Reach {
            found: _found,
            unreachable: _unreachable,
            unreadable: _unreadable,
            puzzled: _puzzled,
            wants_tls: _wants_tls,
            answered: _answered,
            refusals: _refusals,
            failures: _failures,
            losses: _losses,
            strife: _strife,
            denials: _denials,
        } = self;
    }
}

impl Reach {
    /// Returns that nobody has connected yet.
    pub const fn new() -> Reach {
        Reach {
            found: AtomicU64::new(UNREACHED),
            unreachable: AtomicU64::new(WELL),
            unreadable: AtomicU64::new(WELL),
            puzzled: AtomicU64::new(0),
            wants_tls: AtomicU64::new(0),
            answered: AtomicU64::new(0),
            refusals: Refusals::new(),
            failures: Failures::new(),
            losses: Losses::new(),
            strife: Strife::new(),
            denials: Denials::new(),
        }
    }

    /// Begins anew, with a server that nobody has reached, and others who ask it. What was said of it stays said.
    pub fn begin(&self) {
        self.found.store(UNREACHED, Ordering::SeqCst);
        self.puzzled.store(0, Ordering::SeqCst);
        self.answered.store(0, Ordering::SeqCst);
    }

    /// Notes that a connection was made.
    pub fn note_reached(&self) {
        let _ = self
            .found
            .compare_exchange(UNREACHED, REACHED, Ordering::SeqCst, Ordering::SeqCst);
    }

    /// Notes that a connection was refused. Returns whether the server has ended by that: one was made before.
    pub fn note_refused(&self) -> bool {
        self.found
            .compare_exchange(REACHED, GONE, Ordering::SeqCst, Ordering::SeqCst)
            .is_ok()
    }

    /// Returns whether the server was reached and has ended.
    pub fn is_gone(&self) -> bool {
        self.found.load(Ordering::SeqCst) == GONE
    }

    /// Notes that something that the server sent was understood.
    pub(crate) fn note_answered(&self) {
        self.answered.store(1, Ordering::SeqCst);
    }

    /// Returns whether something that the server sent was understood, a list or a part of a watch, since it was begun with.
    pub fn has_answered(&self) -> bool {
        self.answered.load(Ordering::SeqCst) != 0
    }

    /// Notes a trouble with the server, and returns whether it is news: of its sort another one was said last, or none.
    pub(crate) fn is_news(&self, trouble: Trouble) -> bool {
        let number = trouble.number();
        let said = if trouble.is_of_connections() {
            &self.unreachable
        } else {
            &self.unreadable
        };
        said.swap(number, Ordering::SeqCst) != number
    }

    /// Notes that the server can be reached, and returns whether it is news: it was said last why it could not.
    pub(crate) fn is_there_again(&self) -> bool {
        self.unreachable.swap(WELL, Ordering::SeqCst) != WELL
    }

    /// Returns whether it was said last that what comes is no reply.
    pub(crate) fn sends_no_reply(&self) -> bool {
        self.unreadable.load(Ordering::SeqCst) == Trouble::NoReply.number()
    }

    /// Notes one more of those who ask that has not understood what came last.
    pub(crate) fn note_puzzled(&self) {
        self.puzzled.fetch_add(1, Ordering::SeqCst);
    }

    /// Notes that who asks understands what came, and returns whether it is news: it was said last that somebody does not, and all do now.
    pub(crate) fn is_understood_again(&self, was_puzzled: bool) -> bool {
        let puzzled = if was_puzzled {
            self.puzzled
                .fetch_sub(1, Ordering::SeqCst)
                .saturating_sub(1)
        } else {
            self.puzzled.load(Ordering::SeqCst)
        };
        puzzled == 0 && self.unreadable.swap(WELL, Ordering::SeqCst) != WELL
    }

    /// Notes whether what the server sends begins as where TLS is wanted.
    pub(crate) fn note_begun(&self, wants_tls: bool) {
        self.wants_tls.store(u64::from(wants_tls), Ordering::SeqCst);
    }

    /// Returns whether the last that the server sent began so.
    pub(crate) fn wants_tls(&self) -> bool {
        self.wants_tls.load(Ordering::SeqCst) != 0
    }

    /// Returns whether nothing is said to be wrong with what the server answers, or that is over.
    pub(crate) fn answers_well(&self) -> bool {
        !self.refusals.is_said() && !self.failures.spell.is_said() && !self.losses.spell.is_said()
    }
}

impl Default for Reach {
    fn default() -> Reach {
        Reach::new()
    }
}

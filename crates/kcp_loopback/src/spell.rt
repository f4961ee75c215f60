//! Whether a trouble is there that comes and goes with answers.
ghost use Rattle.std.specs.Prelude.{◌≡◌};
ghost use Rattle.kcp_loopback.specs.Spells.{is_over, needed_again};

use std::sync::atomic::{AtomicU64, Ordering};

/// After how many answers in a row without it a trouble is over, at least.
const FEWEST: u64 = 4;

/// After how many it is over at most, and no longer the same trouble when it comes again.
const MOST: u64 = 1024;

/// Whether a trouble was said that comes and goes with answers. It is over after some answers in a row without it, and each time it comes again
/// before `MOST` were without it, after twice as many: so it is not said anew by each turn of answers with and without it, however many are.
#[derive(Drop)]
pub(crate) struct Spell {
    /// 1 from when it was said until it is over.
    is_said: AtomicU64,
    /// How many answers in a row were without it.
    without: AtomicU64,
    /// After how many it is over.
    needed: AtomicU64,
}

/// Returns after how many answers in a row a trouble is over that comes again, where it was after so many before, and so many were without it.
fn needed_again(needed: u64, without: u64) -> u64
    ensures { result ≡ needed_again needed without }
{
    if MOST <= without {
        FEWEST
    } else if needed < MOST {
        (needed + needed).min(MOST)
    } else {
        MOST
    }
}

/// Returns whether a trouble is over after so many answers in a row without it, where so many are needed. As long as it is left somewhere all are.
fn is_over(is_left: bool, needed: u64, without: u64) -> bool
    ensures { result ≡ is_over is_left needed without }
{
    if is_left {
        MOST <= without
    } else {
        needed <= without
    }
}

impl Spell {
    /// Returns that there was no trouble yet.
    pub(crate) const fn new() -> Spell {
        Spell {
            is_said: AtomicU64::new(0),
            without: AtomicU64::new(MOST),
            needed: AtomicU64::new(FEWEST),
        }
    }

    /// Returns whether the trouble was said, and is not over.
    pub(crate) fn is_said(&self) -> bool {
        self.is_said.load(Ordering::SeqCst) != 0
    }

    /// Notes that the trouble is there, and returns whether that is to be said.
    pub(crate) fn note_there(&self) -> bool {
        let without = self.without.swap(0, Ordering::SeqCst);
        let is_news = self.is_said.swap(1, Ordering::SeqCst) == 0;
        if is_news {
            let needed = self.needed.load(Ordering::SeqCst);
            self.needed
                .store(needed_again(needed, without), Ordering::SeqCst);
        }
        is_news
    }

    /// Notes an answer without it, and whether it is left somewhere, and returns whether it is to be said that it is over.
    pub(crate) fn note_without(&self, is_left: bool) -> bool {
        let before = self.without.fetch_add(1, Ordering::SeqCst);
        let needed = self.needed.load(Ordering::SeqCst);
        self.is_said()
            && is_over(is_left, needed, before.saturating_add(1))
            && self.is_said.swap(0, Ordering::SeqCst) != 0
    }
}

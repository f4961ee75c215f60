//! Whether writes are refused as conflicts again and again.
ghost use Rattle.std.specs.Prelude.{◌≡◌};
ghost use Rattle.kcp_loopback.specs.Strife.{after_conflict, after_taken, is_many, is_over};

use std::sync::atomic::{AtomicU64, Ordering};

/// What a conflict adds, where a write that is taken takes away one: the sum grows where more than a third of all writes are conflicts.
const CONFLICT: u64 = 2;

/// From which sum on it is said.
const MANY: u64 = 40;

/// Whether writes are refused as conflicts again and again. Now and then one is, as it was made by an older look; many are where somebody else
/// writes the same objects, as another controller manager does. However long that lasts, it is over after as many writes that are taken.
#[derive(Drop)]
pub(crate) struct Strife {
    sum: AtomicU64,
    /// 1 from when it was said until few are conflicts.
    is_said: AtomicU64,
}

/// Returns the sum after a conflict: it grows to one conflict more than is said.
fn after_conflict(sum: u64) -> u64
    ensures { result ≡ after_conflict sum }
{
    if sum < MANY {
        sum + CONFLICT
    } else {
        MANY + CONFLICT
    }
}

/// Returns the sum after a write that is taken.
fn after_taken(sum: u64) -> u64
    ensures { result ≡ after_taken sum }
{
    sum.saturating_sub(1)
}

/// Returns whether it is to be said at a further conflict, where this was the sum before it.
fn is_many(sum: u64) -> bool
    ensures { result ≡ is_many sum }
{
    MANY <= sum
}

/// Returns whether it is over where this is the sum.
fn is_over(sum: u64) -> bool
    ensures { result ≡ is_over sum }
{
    sum == 0
}

impl Strife {
    /// Returns that nothing was written yet.
    pub(crate) const fn new() -> Strife {
        Strife {
            sum: AtomicU64::new(0),
            is_said: AtomicU64::new(0),
        }
    }

    /// Makes the sum another one, unless another thread has changed it meanwhile, and returns whether it did.
    fn exchange(&self, before: u64, after: u64) -> bool {
        self.sum
            .compare_exchange(before, after, Ordering::SeqCst, Ordering::SeqCst)
            .is_ok()
    }

    /// Notes a write that is refused as a conflict, and returns whether it is to be said that many are. Of those that many threads note at once
    /// some may not count.
    pub(crate) fn note_conflict(&self) -> bool {
        let before = self.sum.load(Ordering::SeqCst);
        self.exchange(before, after_conflict(before))
            && is_many(before)
            && self.is_said.swap(1, Ordering::SeqCst) == 0
    }

    /// Notes a write that is taken. Of those that many threads note at once some may not count.
    pub(crate) fn note_taken(&self) {
        let before = self.sum.load(Ordering::SeqCst);
        let after = after_taken(before);
        if self.exchange(before, after) && is_over(after) {
            self.is_said.store(0, Ordering::SeqCst);
        }
    }
}

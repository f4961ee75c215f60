//! Whether a server gives no whole reply.
ghost use Rattle.std.specs.Prelude.{◌≡◌};
ghost use Rattle.kcp_loopback.specs.Losses.{is_many};

use crate::spell::Spell;
use std::sync::atomic::{AtomicU64, Ordering};

/// At which lost answer in a row it is said: no follower loses more than one before its first pause.
const MANY: u64 = 8;

/// How many answers were lost in a row, over all threads. Now and then one is, or some at one moment, as where a proxy cuts connections; all are
/// where a port wants something else than is sent there.
#[derive(Drop)]
pub(crate) struct Losses {
    row: AtomicU64,
    pub(crate) spell: Spell,
}

/// Returns whether so many lost answers in a row are to be said.
fn is_many(lost: u64) -> bool
    ensures { result ≡ is_many lost }
{
    MANY <= lost
}

impl Losses {
    /// Returns that no answer was lost.
    pub(crate) const fn new() -> Losses {
        Losses {
            row: AtomicU64::new(0),
            spell: Spell::new(),
        }
    }

    /// Notes a lost answer, and returns whether it is to be said that no whole reply is given.
    pub(crate) fn note_lost(&self) -> bool {
        let before = self.row.fetch_add(1, Ordering::SeqCst);
        (is_many(before.saturating_add(1)) || self.spell.is_said()) && self.spell.note_there()
    }

    /// Notes a whole reply, and returns whether it is to be said that these are given again.
    pub(crate) fn note_whole(&self) -> bool {
        self.row.store(0, Ordering::SeqCst);
        self.spell.note_without(false)
    }
}

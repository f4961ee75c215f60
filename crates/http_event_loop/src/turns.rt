//! The turns to answer a connection, which loops share.
ghost use Rattle.std.specs.Prelude.{◌≡◌, ◌+◌, ◌^◌, ◌<◌, ◌≤◌, IfNone, IfSome, true, false};

use std::sync::ledger::{Blank, Ledger, Share};

/// The turns that are left. They are as many parts of a ledger, of which nobody has two at once: who takes a turn has its
/// part, so no more are ever taken than there are. The parts exist in proofs alone.
#[derive(Drop)]
pub struct Turns<L: Ledger> {
    /// How many are left.
    pub left: u64,
    parts: Share<L>,
    ghost counted: { parts.parts ≡ left },
    ghost unused: { parts.amount ≡ 0 },
}

/// How many turns were taken.
#[derive(Drop)]
pub struct TurnsTaken<L: Ledger> {
    pub count: u64,
    parts: Share<L>,
    ghost counted: { parts.parts ≡ count },
    ghost unused: { parts.amount ≡ 0 },
}

impl<L: Ledger> Turns<L> {
    /// Returns so many turns.
    pub fn new(most: u64, blank: Blank) -> Turns<L>
        requires name { blank.name ≡ L.name }
        requires parts { blank.parts ≡ L.parts }
        requires most { most ≡ L.parts }
        ensures { result.left ≡ most }
    {
        let (_, parts) = blank.open::<L>();
        Turns { left: most, parts }
    }

    /// Takes no turn.
    pub fn take_none(&mut self) -> TurnsTaken<L>
        ensures none { result.count ≡ 0 }
        ensures left { self.new.left ≡ self.old.left }
    {
        TurnsTaken {
            count: 0,
            parts: self.parts.empty(),
        }
    }

    /// Takes a turn; none only where none is left.
    pub fn take(&mut self) -> Option<TurnsTaken<L>>
        ensures one { IfSome result (λ taken. taken.count ≡ 1) }
        ensures left { IfSome result (λ taken. self.new.left + taken.count ≡ self.old.left) }
        ensures none { IfNone result ((self.old.left ≡ 0) × (self.new.left ≡ 0)) }
    {
        if self.left == 0 {
            return None;
        }
        let Turns { left, parts } = self;
        let part = parts.split_off(1, 0);
        *left -= 1;
        Some(TurnsTaken {
            count: 1,
            parts: part,
        })
    }
}

impl<L: Ledger> TurnsTaken<L> {
    /// Adds the turns that were taken elsewhere, and returns whether they could be counted: they can where there are no more turns than a
    /// count can say.
    pub fn add(&mut self, other: TurnsTaken<L>) -> bool
        ensures sum { result ≡ true → self.new.count ≡ self.old.count + other.count }
        ensures most { result ≡ true → self.new.count ≤ L.parts }
        ensures none { result ≡ false → self.new.count ≡ self.old.count }
        ensures counts { L.parts < 2 ^ 64 → result ≡ true }
    {
        let TurnsTaken {
            count: more,
            parts: others,
        } = other;
        let TurnsTaken { count, parts } = self;
        parts.merge(others);
        match count.checked_add(more) {
            Some(sum) => {
                *count = sum;
                true
            }
            None => {
                let _ = parts.split_off(more, 0);
                false
            }
        }
    }

    /// Returns how many they are: no more than there are turns.
    pub fn total(self) -> u64
        ensures count { result ≡ self.count }
        ensures most { result ≤ L.parts }
    {
        let TurnsTaken { count, mut parts } = self;
        let none = parts.empty();
        parts.merge(none);
        count
    }
}

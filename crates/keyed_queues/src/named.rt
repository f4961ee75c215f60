//! What a key has to be.
ghost use Rattle.std.specs.Prelude.{◌≡◌, IfOk};
ghost use Rattle.std.specs.Cmp.{IsTotalOrder};
ghost use Rattle.std.specs.FinSet.{IsAntisymmetric};
ghost use Rattle.std.specs.declared.cmp.Ordering.{Ordering};

use std::alloc::AllocError;

/// Keys in an order, each of which says a name. Two keys that compare equal say the same name.
pub trait Named: Ord + Drop {
    /// What keys say.
    ghost Name: { Type 0 };

    /// The order of names.
    ghost order: { Name → Name → Ordering };

    /// What a key says.
    ghost says: { Self → Name };

    /// Returns a copy, which says the same. The error is running out of memory.
    fn try_copy(&self) -> Result<Self, AllocError>
        ensures { IfOk result (λ k. says k ≡ says self.now) };

    /// Names are in a total order.
    ghost ordered: { IsTotalOrder order };

    /// Names that compare equal are the same.
    ghost apart: { IsAntisymmetric order };

    /// Keys go by what they say.
    ghost alike: { (a b : Self) → Self.cmp a b ≡ order (says a) (says b) };
}

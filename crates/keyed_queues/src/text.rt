//! Texts are keys to queue by.
use crate::named::Named;
use std::alloc::AllocError;

impl Named for String {
    ghost use Rattle.std.specs.Prelude.{ℕ, List, string_bytes, refl};
    ghost use Rattle.std.specs.Ordering.{nat_cmp};
    ghost use Rattle.std.specs.Cmp.Lexicographic.{slice_cmp, nat_list_cmp_total};
    ghost use Rattle.std.specs.FinSet.{nat_cmp-IsAntisymmetric, slice_cmp-IsAntisymmetric};

    ghost Name = { List ℕ };

    ghost order = { slice_cmp nat_cmp };

    ghost says = { λ s. string_bytes s };

    ghost ordered = { nat_list_cmp_total };

    ghost apart = { slice_cmp-IsAntisymmetric nat_cmp-IsAntisymmetric };

    ghost alike = { λ a b. refl };

    fn try_copy(&self) -> Result<String, AllocError> {
        self.clone()
    }
}

//! The rule of what is known of the published map.
ghost use Rattle.std.specs.Prelude.{◌≡◌, ◌++◌, ◌∷◌, List, []};

use crate::published::Published;
use crate::views::MapView;
use atomic_table::{Join, Split};
use crossbeam_utils::rule::{Outcome, Protocol};
use std::marker::{Brand, PhantomData};

/// Whatever is known is a beginning of the batches of deltas that made the map.
pub struct BatchRule;

impl Protocol<Published, MapView> for BatchRule {
    ghost use Rattle.informer.specs.Knowing.{IsKept, knowing_nothing};

    ghost holds = { IsKept };

    ghost first = { knowing_nothing };
}

/// The deltas that are published at once.
pub trait Batch {
    ghost use Rattle.reflector.specs.declared.deltas.Delta.{Delta};

    ghost deltas: { List Delta };
}

impl Batch for Brand {
    ghost deltas = { [] };
}

/// A reader sees a map.
pub struct Sees;

impl Outcome<Published, MapView> for Sees {
    ghost use Rattle.informer.specs.Knowing.{HasSeen};

    ghost then = { λ v x y w. HasSeen v y w };
}

/// The writer publishes a batch.
pub struct Publishes<M> {
    batch: PhantomData<M>,
}

impl<M: Batch> Outcome<Published, MapView> for Publishes<M> {
    ghost use Rattle.informer.specs.Knowing.{knowing, latest};

    ghost then = { λ v x y w. w ≡ knowing (latest v ++ M.deltas ∷ []) };
}

/// The writer tells what it knows.
pub struct Tells;

impl Split<MapView> for Tells {
    ghost left = { λ v. v };

    ghost right = { λ v. v };
}

/// A reader learns what it is told.
pub struct Learns;

impl Join<MapView> for Learns {
    ghost use Rattle.informer.specs.Knowing.{knowing_both, knowing_nothing};

    ghost both = { λ v w. knowing_both w v };

    ghost spent = { knowing_nothing };
}

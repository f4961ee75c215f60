//! A copy of the map.
use crate::shared_deltas::SharedDelta;
use indexer::Indexed;
use left_right::Absorb;
use std::alloc::{AllocError, Global};

/// A map, with the count of the deltas that made it.
#[derive(Drop)]
pub struct Published {
    pub indexed: Indexed,
    pub count: u64,
}

impl Published {
    ghost use Rattle.std.specs.Prelude.{◌≡◌, []};
    ghost use Rattle.informer.specs.Published.{IsAfter};

    /// Returns the map before the first delta.
    pub fn new(alloc: Global) -> Published
        ensures { IsAfter [] result }
    {
        Published {
            indexed: Indexed::new(alloc),
            count: 0,
        }
    }
}

impl Absorb<SharedDelta> for Published {
    ghost use Rattle.informer.specs.Published.{with_shared};

    type State = Published;

    ghost state = { λ p. p };

    ghost applied = { with_shared };

    fn absorb_first(&mut self, delta: &SharedDelta, _other: &Published) -> Result<(), AllocError> {
        let count = self.count.checked_add(1).ok_or(AllocError)?;
        self.indexed.apply(delta)?;
        self.count = count;
        Ok(())
    }
}

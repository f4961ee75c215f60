//! What a thread knows of a run, and could not without having looked: nothing outside this file can make a value of these types.
ghost use Rattle.std.specs.Prelude.{◌≡◌, ◌≤◌, IfOk, OnErr, OnOk, false, true};

use std::sync::Wait;
use std::time::Clock;
use wakeups::{Bell, Stop};

/// A run is over: somebody has looked, and it was.
#[derive(Drop)]
pub(crate) struct Over {
    is_over: bool,
    ghost seen: { is_over ≡ true },
}

impl Over {
    /// Returns an error where the run is over.
    fn seen(is_over: bool) -> Result<(), Over>
        ensures goes_on { OnOk result (is_over ≡ false) }
        ensures over { OnErr result (is_over ≡ true) }
    {
        if is_over {
            Err(Over { is_over })
        } else {
            Ok(())
        }
    }

    /// Looks whether a run is over: whether its threads were told to stop.
    pub(crate) fn look(stop: &Stop) -> Result<(), Over> {
        Over::seen(stop.is_stopped())
    }

    /// Waits for so many milliseconds, or until the run is over.
    pub(crate) fn rest<R: Wait + Clock>(
        rt: &R,
        stop: &Stop,
        milliseconds: u64,
    ) -> Result<(), Over> {
        Over::seen(stop.rest(rt, milliseconds))
    }
}

/// Each kind that is followed has published its first list: so many lists were counted, and no fewer than kinds.
#[derive(Drop)]
pub(crate) struct Listed {
    lists: u64,
    pub(crate) kinds: u64,
    ghost all: { kinds ≤ lists },
}

impl Listed {
    /// Counts the first lists, each of which has rung a bell. The error is how many there are, where they are fewer than kinds.
    pub(crate) fn count(bell: &Bell, kinds: u64) -> Result<Listed, u64>
        ensures { IfOk result (λ listed. listed.kinds ≡ kinds) }
    {
        let lists = bell.count();
        if kinds <= lists {
            Ok(Listed { lists, kinds })
        } else {
            Err(lists)
        }
    }
}

//! How far a run is.
ghost use Rattle.std.specs.Prelude.{◌≡◌, IfOk};

use crate::signs::{Listed, Over};
use std::sync::Wait;
use std::sync::atomic::{AtomicU64, Ordering};
use std::time::Clock;
use wakeups::{Bell, Stop};

/// How many milliseconds a thread that waits for a list sleeps at most. Each list wakes it, and so does the end: this is for safety alone.
const LONGEST_SLEEP: u64 = 60_000;

/// What the threads of a run tell one another beside their board.
#[derive(Drop)]
pub(crate) struct UnderWay<'a> {
    /// Tells the threads of this run that it is over, and what connects for them.
    pub(crate) over: &'a Stop,
    /// How many kinds are followed.
    pub(crate) kinds: u64,
    /// How many of them have published their first list; and once more at the end.
    listed: Bell,
    /// 1 once another server answered than before.
    lost: AtomicU64,
}

impl<'a> UnderWay<'a> {
    /// Returns a run of which nothing was published yet, and whose end stops this.
    pub(crate) fn new(over: &'a Stop, kinds: u64) -> UnderWay<'a>
        ensures { result.kinds ≡ kinds }
    {
        UnderWay {
            over,
            kinds,
            listed: Bell::new(),
            lost: AtomicU64::new(0),
        }
    }

    /// Looks whether the run is over.
    pub(crate) fn check(&self) -> Result<(), Over> {
        Over::look(self.over)
    }

    /// Waits for so many milliseconds, or until the run is over.
    pub(crate) fn rest<R: Wait + Clock>(&self, rt: &R, milliseconds: u64) -> Result<(), Over> {
        Over::rest(rt, self.over, milliseconds)
    }

    /// Notes that a kind has published its first list.
    pub(crate) fn note_listed(&self) {
        self.listed.ring();
    }

    /// Waits until each kind has published its first list, or the run is over.
    pub(crate) fn await_lists<R: Wait + Clock>(&self, rt: &R) -> Result<Listed, Over>
        ensures { IfOk result (λ listed. listed.kinds ≡ self.now.kinds) }
    {
        for _ in rt.forever() {
            let counted = Listed::count(&self.listed, self.kinds);
            self.check()?;
            match counted {
                Ok(listed) => return Ok(listed),
                Err(lists) => {
                    let _ = self.listed.wait(rt, lists, LONGEST_SLEEP);
                }
            }
        }
        unreachable!()
    }

    /// Ends the run: all its threads stop.
    pub(crate) fn end(&self) {
        self.over.stop();
        self.listed.ring();
    }

    /// Notes that another server answers than before, and ends the run.
    pub(crate) fn note_lost(&self) {
        self.lost.store(1, Ordering::SeqCst);
        self.end();
    }

    /// Returns whether another server answered than before.
    pub(crate) fn has_lost(&self) -> bool {
        self.lost.load(Ordering::SeqCst) != 0
    }
}

//! A clock and a sink that play a script.
ghost use Rattle.std.specs.Prelude.{⊤};

use list_and_watch::{Cause, Indexed, Onward, Shift, Sink, Timer};
use std::alloc::AllocError;

/// A clock that goes on by the pauses alone, which it records, and stops the follower at one of them.
#[derive(Drop)]
pub struct Waits {
    pub now: u64,
    pub most: usize,
    pub pauses: Vec<u64>,
}

impl Timer for Waits {
    fn now(&mut self) -> u64 {
        self.now
    }

    fn pause(&mut self, milliseconds: u64) -> Onward {
        let _ = self.pauses.push(milliseconds);
        self.now = self.now.saturating_add(milliseconds);
        if self.pauses.len() < self.most {
            Onward::GoOn
        } else {
            Onward::Stop
        }
    }
}

/// Records the revisions that are published and counts the changes, and stops at a revision. It refuses some changes at first.
#[derive(Drop)]
pub struct RecordingSink {
    pub until: u64,
    pub refusals: u64,
    pub changes: usize,
    pub firsts: usize,
    pub revisions: Vec<u64>,
    pub objects: usize,
    /// How often it was told of another server.
    pub others: usize,
}

impl Sink for RecordingSink {
    ghost takes = { λ before changes objects cause after. ⊤ };

    fn changed(
        &mut self,
        shifts: &[Shift],
        objects: &Indexed,
        cause: Cause,
    ) -> Result<(), AllocError> {
        if 0 < self.refusals {
            self.refusals -= 1;
            return Err(AllocError);
        }
        self.revisions.push(objects.revision())?;
        self.changes = self.changes.saturating_add(shifts.len());
        self.firsts = self
            .firsts
            .saturating_add(usize::from(cause == Cause::FirstList));
        self.objects = objects.len();
        Ok(())
    }

    fn other_server(&mut self) {
        self.others = self.others.saturating_add(1);
    }

    fn goes_on(&mut self) -> Onward {
        match self.revisions.last() {
            Some(&revision) if self.until <= revision => Onward::Stop,
            _ => Onward::GoOn,
        }
    }
}

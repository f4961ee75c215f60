//! What was published and is still to be given to a sink.
ghost use Rattle.std.specs.Prelude.{◌≡◌, OnOk, OnErr, None, map, option_map};
ghost use Rattle.indexer.specs.Shifted.{shift_of};
ghost use Rattle.list_and_watch.specs.Followers.{published_unless, owed_after};
ghost use Rattle.list_and_watch.specs.Given.{IsGiven, StaysSo};
ghost use Rattle.list_and_watch.specs.Told.{cause_given, cause_published};
ghost use Rattle.list_and_watch.specs.declared.causes.Cause.TheVariants.{FirstList};

use crate::causes::Cause;
use crate::follower::Follower;
use crate::sinks::Sink;
use indexer::{Indexed, Shift};
use plain_informer::Publishing;
use std::alloc::AllocError;

/// The changes of the last publish until the sink has taken them, and why they are given; where none are owed, the cause is the first as long as none
/// were taken.
#[derive(Drop)]
pub(crate) struct Owed {
    changes: Option<Vec<Shift>>,
    cause: Cause,
}

impl Owed {
    /// Returns that nothing was given yet, and nothing is owed.
    pub(crate) fn new() -> Owed
        ensures { (result.changes ≡ None) × (result.cause ≡ FirstList) }
    {
        Owed {
            changes: None,
            cause: Cause::FirstList,
        }
    }

    /// Publishes what waits, unless changes are still owed: those of the publish are owed then. The error is running out of memory, and changes
    /// nothing.
    pub(crate) fn publish<I: Publishing>(
        &mut self,
        follower: &mut Follower<I>,
    ) -> Result<(), AllocError>
        ensures published { OnOk result (follower.new ≡ published_unless (option_map (λ v. map shift_of v.items) self.old.changes) follower.old) }
        ensures owed { OnOk result (option_map (λ v. map shift_of v.items) self.new.changes
            ≡ owed_after (option_map (λ v. map shift_of v.items) self.old.changes) follower.old.informer) }
        ensures cause { OnOk result (self.new.cause ≡ cause_published (option_map (λ v. map shift_of v.items) self.old.changes) follower.old.informer self.old.cause) }
        ensures err { OnErr result ((follower.new ≡ follower.old) × (self.new ≡ self.old)) }
    {
        if self.changes.is_none() {
            let cause = self.cause.after(follower.has_list());
            self.changes = follower.publish()?;
            self.cause = cause;
        }
        Ok(())
    }

    /// Gives a sink the changes that are owed, with what is published; nothing is owed then. The error is that it did not take them, and
    /// they are still owed.
    pub(crate) fn give<S: Sink>(
        &mut self,
        objects: &Indexed,
        sink: &mut S,
    ) -> Result<(), AllocError>
        ensures given { OnOk result (IsGiven S.takes (option_map (λ v. map shift_of v.items) self.old.changes) objects.now self.old.cause sink.old sink.new) }
        ensures taken { OnOk result (self.new.changes ≡ None) }
        ensures cause { OnOk result (self.new.cause ≡ cause_given (option_map (λ v. map shift_of v.items) self.old.changes) self.old.cause) }
        ensures refused { OnErr result (IsGiven S.refuses (option_map (λ v. map shift_of v.items) self.old.changes) objects.now self.old.cause sink.old sink.new) }
        ensures err { OnErr result (self.new ≡ self.old) }
        ensures stays { StaysSo S.stays sink.old sink.new }
    {
        let Some(shifts) = &self.changes else {
            return Ok(());
        };
        sink.changed(shifts.as_slice(), objects, self.cause)?;
        *self = Owed {
            changes: None,
            cause: Cause::Changes,
        };
        Ok(())
    }
}

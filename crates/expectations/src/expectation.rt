//! What one ReplicaSet waits for.
ghost use Rattle.std.specs.Prelude.{◌≡◌, ◌-◌, ◌==◌, ◌&&◌, Some};
ghost use Rattle.std.specs.FinSet as set;
ghost use Rattle.spec_client_go.specs.Expectations.{is_met};
ghost use Rattle.expectations.specs.Aged.{ages_out};
ghost use Rattle.expectations.specs.Seen.{expectation_of};

use std::collections::BTreeSet;

/// How many pods are still to be seen created, the uids of those that are still to be seen deleted, and since when.
#[derive(Drop)]
pub struct Expectation {
    pub creations: u32,
    pub deletions: BTreeSet<String>,
    pub since: u64,
}

impl Expectation {
    /// Counts one creation less, if one is left.
    pub fn see_created(&mut self)
        ensures { expectation_of self.new ≡ record (expectation_of self.old) { creations = (expectation_of self.old).creations - 1 } }
    {
        self.creations = self.creations.saturating_sub(1);
    }

    /// Removes a pod from the deletions, if it is among them.
    pub fn see_deleted(&mut self, pod: &str)
        ensures { expectation_of self.new ≡ record (expectation_of self.old) { deletions = set.remove (expectation_of self.old).deletions pod.now } }
    {
        self.deletions.remove(pod);
    }

    /// Returns whether nothing is left, or five minutes have passed.
    pub fn is_met(&self, now: u64) -> bool
        ensures { result ≡ is_met now (Some (expectation_of self.now)) }
    {
        self.is_over() || now.saturating_sub(self.since) > 300_000
    }

    /// Returns whether something was left to see at the moment `before`, and by `now` more than five minutes have passed.
    pub fn ages_out(&self, before: u64, now: u64) -> bool
        ensures { result ≡ ages_out before now (Some (expectation_of self.now)) }
    {
        !self.is_met(before) && self.is_met(now)
    }

    /// Returns whether nothing is left.
    fn is_over(&self) -> bool
        ensures { result ≡ (((expectation_of self.now).creations == 0) && (set.len (expectation_of self.now).deletions == 0)) }
    {
        self.creations == 0 && self.deletions.len() == 0
    }
}

//! Delays that grow with each failure.
ghost use Rattle.std.specs.Prelude.{◌≡◌, true, IfOk, OnOk, OnErr};
ghost use Rattle.std.specs.FinMap as map;
ghost use Rattle.spec_client_go.specs.Delays.{failures, failed, delay_after};
ghost use Rattle.backoff.specs.Seen.{restored};
ghost use Rattle.object_keys.specs.WorkKeys.{work_key_of};

use keyed_queues::KeyedBackoff;
use object_keys::WorkKey;
use std::alloc::{AllocError, Global};
use std::marker::Model;

/// How often each work key failed in a row.
#[derive(Drop)]
pub struct Backoff {
    keys: KeyedBackoff<WorkKey>,
}

impl Model for Backoff {
    ghost use Rattle.spec_client_go.specs.Delays.{Failures};
    ghost use Rattle.spec_client_go.specs.Codes.{coded_counts};

    ghost Value = { Failures };

    ghost coded = { coded_counts };

    ghost use Rattle.backoff.specs.Seen.{counts_of};

    ghost view = { λ b. counts_of b.keys };
}

impl Backoff {
    /// Returns a table in which no key has failed.
    pub fn new(alloc: Global) -> Backoff
        ensures { result ≡ map.empty }
    {
        Backoff {
            keys: KeyedBackoff::new(alloc),
        }
    }

    /// Counts a failure of a key, and returns how long the key waits, in milliseconds: twice as long after each failure, and at
    /// most 1,000 seconds.
    pub fn delay(&mut self, key: &WorkKey) -> Result<u64, AllocError>
        ensures ok { OnOk result (self.new ≡ failed (work_key_of key.now) self.old) }
        ensures delay { IfOk result (λ d. d ≡ delay_after (failures (work_key_of key.now) self.old)) }
        ensures err { OnErr result (self.new ≡ self.old) }
    {
        self.keys.delay(key)
    }

    /// Returns how often a key failed in a row, if it did.
    pub fn failures(&self, key: &WorkKey) -> Option<u32>
        ensures { result ≡ map.get self.now (work_key_of key.now) }
    {
        self.keys.failures(key)
    }

    /// Sets how often a key failed in a row to what `failures` returned before a failure that is not to count.
    pub fn restore(&mut self, key: &WorkKey, before: Option<u32>)
        requires { map.contains_key self.old (work_key_of key.now) ≡ true }
        ensures { self.new ≡ restored (work_key_of key.now) before self.old }
    {
        self.keys.restore(key, before);
    }

    /// Removes the failures of a key that succeeded.
    pub fn forget(&mut self, key: &WorkKey)
        ensures { self.new ≡ map.remove self.old (work_key_of key.now) }
    {
        self.keys.forget(key);
    }
}

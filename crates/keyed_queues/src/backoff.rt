//! Failures by key, and the delays that follow them.
use crate::named::Named;
use std::alloc::{AllocError, Global};
use std::collections::BTreeMap;
use std::marker::Model;

/// How often each key failed in a row.
#[derive(Drop)]
pub struct KeyedBackoff<K: Named> {
    failures: BTreeMap<K, u32>,
}

impl<K: Named> Model for KeyedBackoff<K> {
    ghost use Rattle.std.specs.Prelude.{ℕ, List};
    ghost use Rattle.keyed_queues.specs.Numbers.{coded_numbers};

    ghost Value = { List (K × ℕ) };

    ghost coded = { coded_numbers K.code };

    ghost view = { λ b. b.failures.entries };
}

impl<K: Named> KeyedBackoff<K> {
    ghost use Rattle.std.specs.Prelude.{◌≡◌, true, IfOk, OnOk, OnErr};
    ghost use Rattle.std.specs.FinMap as map;
    ghost use Rattle.spec_client_go.specs.Delays.{delay_after};
    ghost use Rattle.keyed_queues.specs.Numbers.{said};
    ghost use Rattle.keyed_queues.specs.Failures.{failures, failed, restored};

    /// Returns a table in which no key has failed.
    pub fn new(alloc: Global) -> KeyedBackoff<K>
        ensures { said K.order K.says result ≡ map.empty }
    {
        KeyedBackoff {
            failures: BTreeMap::new(alloc),
        }
    }

    /// Counts a failure of a key, and returns how long the key waits, in milliseconds: twice as long after each failure, and at
    /// most 1,000 seconds.
    pub fn delay(&mut self, key: &K) -> Result<u64, AllocError>
        ensures ok { OnOk result (said K.order K.says self.new ≡ failed (K.says key.now) (said K.order K.says self.old)) }
        ensures delay { IfOk result (λ d. d ≡ delay_after (failures (K.says key.now) (said K.order K.says self.old))) }
        ensures err { OnErr result (self.new ≡ self.old) }
    {
        let before = self.failures.get(key).copied().unwrap_or(0);
        let kept = key.try_copy()?;
        self.failures.insert(kept, one_more(before))?;
        Ok(delay_of(before))
    }

    /// Returns how often a key failed in a row, if it did.
    pub fn failures(&self, key: &K) -> Option<u32>
        ensures { result ≡ map.get (said K.order K.says self.now) (K.says key.now) }
    {
        self.failures.get(key).copied()
    }

    /// Sets how often a key failed in a row to what `failures` returned before a failure that is not to count.
    pub fn restore(&mut self, key: &K, before: Option<u32>)
        requires { map.contains_key (said K.order K.says self.old) (K.says key.now) ≡ true }
        ensures { said K.order K.says self.new ≡ restored (K.says key.now) before (said K.order K.says self.old) }
    {
        match before {
            None => drop(self.failures.remove(key)),
            Some(before) => {
                if let Some(failures) = self.failures.get_mut(key) {
                    *failures = before;
                }
            }
        }
    }

    /// Removes the failures of a key that succeeded.
    pub fn forget(&mut self, key: &K)
        ensures { said K.order K.says self.new ≡ map.remove (said K.order K.says self.old) (K.says key.now) }
    {
        self.failures.remove(key);
    }
}

ghost use Rattle.std.specs.Prelude.{◌≡◌, ◌+◌, min};
ghost use Rattle.spec_client_go.specs.Delays.{delay_after};

/// Returns one more failure, of which 32 are counted.
fn one_more(failures: u32) -> u32
    ensures { result ≡ min (failures + 1) 32 }
{
    if failures < 32 { failures + 1 } else { 32 }
}

/// Returns the delay after some failures. The 18th doubling passes the ceiling.
fn delay_of(failures: u32) -> u64
    ensures { result ≡ delay_after failures }
{
    if failures < 18 {
        5 * 2u64.pow(failures)
    } else {
        1_000_000
    }
}

//! Keys that are to be added at a moment.
use crate::alarm::Alarm;
use crate::named::Named;
use std::alloc::{AllocError, Global};
use std::collections::{BTreeMap, BTreeSet};
use std::marker::Model;

/// For each key with a delay, the moment when it is added, in milliseconds. Moments are found by key, and keys in the
/// order of their moments.
#[derive(Drop)]
pub struct KeyedDelays<K: Named> {
    moments: BTreeMap<K, u64>,
    alarms: BTreeSet<Alarm<K>>,
    alloc: Global,
}

impl<K: Named> Model for KeyedDelays<K> {
    ghost use Rattle.std.specs.Prelude.{ℕ, List, map as list_map};
    ghost use Rattle.keyed_queues.specs.Delays.{AreAlarms};
    ghost use Rattle.keyed_queues.specs.Numbers.{said, coded_numbers};
    ghost use Rattle.keyed_queues.specs.Said.{alarm_said};

    ghost Value = { List (K × ℕ) };

    ghost coded = { coded_numbers K.code };

    ghost view = { λ d. d.moments.entries };

    ghost invariant = { λ d. AreAlarms K.order (said K.order K.says d.moments.entries) (list_map (alarm_said K.says) d.alarms.keys) };
}

impl<K: Named> KeyedDelays<K> {
    ghost use Rattle.std.specs.Prelude.{◌≡◌, ◌∷◌, ◌<◌, [], map as list_map, length, IfOk, OnOk, OnErr, IfSome, IfNone, None, Some};
    ghost use Rattle.std.specs.FinMap as map;
    ghost use Rattle.keyed_queues.specs.Delays.{delayed, due, next_moment, still_delayed};
    ghost use Rattle.keyed_queues.specs.Numbers.{said};

    /// Returns a table in which no key is delayed.
    pub fn new(alloc: Global) -> KeyedDelays<K>
        ensures { said K.order K.says result ≡ map.empty }
    {
        KeyedDelays {
            moments: BTreeMap::new(alloc),
            alarms: BTreeSet::new(alloc),
            alloc,
        }
    }

    /// Delays a key until a moment. A key that is delayed twice keeps the earlier moment. The error is running out of memory,
    /// and then nothing has changed.
    pub fn add_after(&mut self, key: K, at: u64) -> Result<(), AllocError>
        ensures ok { OnOk result (said K.order K.says self.new ≡ delayed (K.says key) at (said K.order K.says self.old)) }
        ensures err { OnErr result (said K.order K.says self.new ≡ said K.order K.says self.old) }
    {
        match self.moments.get(&key).copied() {
            None => self.begin(key, at),
            Some(before) if at < before => self.hasten(key, before, at),
            Some(_) => Ok(()),
        }
    }

    /// Delays a key that has no delay.
    fn begin(&mut self, key: K, at: u64) -> Result<(), AllocError>
        requires { map.get (said K.order K.says self.old) (K.says key) ≡ None }
        ensures ok { OnOk result (said K.order K.says self.new ≡ delayed (K.says key) at (said K.order K.says self.old)) }
        ensures err { OnErr result (said K.order K.says self.new ≡ said K.order K.says self.old) }
    {
        let alarm = Alarm {
            at,
            key: key.try_copy()?,
        };
        self.moments.insert(key, at)?;
        if let Err(refused) = self.alarms.insert(alarm) {
            self.moments.remove(&refused.value.key);
            return Err(AllocError);
        }
        Ok(())
    }

    /// Sets an earlier moment for a key that is delayed.
    fn hasten(&mut self, key: K, before: u64, at: u64) -> Result<(), AllocError>
        requires delayed { map.get (said K.order K.says self.old) (K.says key) ≡ Some before }
        requires earlier { at < before }
        ensures ok { OnOk result (said K.order K.says self.new ≡ delayed (K.says key) at (said K.order K.says self.old)) }
        ensures err { OnErr result (self.new ≡ self.old) }
    {
        let alarm = Alarm {
            at,
            key: key.try_copy()?,
        };
        self.alarms.insert(alarm)?;
        let replaced = Alarm { at: before, key };
        self.alarms.remove(&replaced);
        self.moments.insert(replaced.key, at)?;
        Ok(())
    }

    /// Returns the moment at which the next key comes due, if one is delayed. It takes no memory.
    pub fn next_moment(&self) -> Option<u64>
        ensures { result ≡ next_moment (said K.order K.says self.now) }
    {
        let Some(first) = self.alarms.first() else {
            return None;
        };
        Some(first.at)
    }

    /// Removes the keys whose moment is at most `now`, and returns them by moment, and those of one moment in order. The error
    /// is running out of memory, and then nothing has changed.
    pub fn due(&mut self, now: u64) -> Result<Vec<K>, AllocError>
        ensures ok { OnOk result (said K.order K.says self.new ≡ still_delayed now (said K.order K.says self.old)) }
        ensures keys { IfOk result (λ ks. list_map K.says ks.items ≡ due now (said K.order K.says self.old)) }
        ensures err { OnErr result (self.new ≡ self.old) }
    {
        let keys = self.due_keys(now)?;
        self.drop_due(now);
        Ok(keys)
    }

    /// Returns copies of the keys whose moment is at most `now`, by moment, and those of one moment in order. The error is
    /// running out of memory.
    pub fn due_keys(&self, now: u64) -> Result<Vec<K>, AllocError>
        ensures { IfOk result (λ ks. list_map K.says ks.items ≡ due now (said K.order K.says self.entry.now)) }
    {
        let mut keys = Vec::with_capacity(self.alloc, self.count_due(now))?;
        for alarm in &self.alarms {
            if alarm.at > now {
                break;
            }
            keys.push(alarm.key.try_copy()?)?;
        }
        Ok(keys)
    }

    /// Removes the keys whose moment is at most `now`.
    pub fn drop_due(&mut self, now: u64)
        ensures { said K.order K.says self.new ≡ still_delayed now (said K.order K.says self.old) }
    {
        while let Some(key) = self.take_due(now) {
            drop(key);
        }
    }

    /// Returns how many keys have a moment that is at most `now`.
    fn count_due(&self, now: u64) -> usize
        ensures { result ≡ length (due now (said K.order K.says self.now)) }
    {
        leading(&self.alarms, now)
    }

    /// Removes the first key whose moment is at most `now`, if there is one, and returns it.
    fn take_due(&mut self, now: u64) -> Option<K>
        ensures first { IfSome result (λ k. due now (said K.order K.says self.old) ≡ K.says k ∷ due now (said K.order K.says self.new)) }
        ensures rest { still_delayed now (said K.order K.says self.new) ≡ still_delayed now (said K.order K.says self.old) }
        ensures none { IfNone result (due now (said K.order K.says self.old) ≡ []) }
        ensures all { IfNone result (said K.order K.says self.new ≡ still_delayed now (said K.order K.says self.old)) }
    {
        let Some(first) = self.alarms.first() else {
            return None;
        };
        if first.at > now {
            return None;
        }
        let Alarm { key, .. } = self.alarms.pop_first()?;
        self.moments.remove(&key);
        Some(key)
    }
}

ghost use Rattle.std.specs.Prelude.{◌≡◌, nat_le};
ghost use Rattle.std.specs.List.{prefix_len};

/// Returns how many alarms stand before the first whose moment is after `now`.
fn leading<K: Ord>(alarms: &BTreeSet<Alarm<K>>, now: u64) -> usize
    ensures { result ≡ prefix_len (λ a. nat_le a.at now) alarms.now.keys }
{
    alarms.iter().take_while(|alarm| alarm.at <= now).count()
}

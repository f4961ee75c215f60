//! The board of work keys that workers share, whose calls are its steps.
ghost use Rattle.std.specs.Prelude.{◌≡◌, ◌+◌, ◌≤◌, IfOk, OnOk, OnErr, length, map, option_map, string_bytes};
ghost use Rattle.spec_client_go.specs.Boards.{begun, taken, finished, requeued, observed, expecting_creations, expecting_deletions, is_satisfied, forgotten, may_tick, ticked, last_moment};
ghost use Rattle.spec_client_go.specs.WorkQueues.{handed};
ghost use Rattle.work_board.specs.Aged.{HaveAgedOut};
ghost use Rattle.work_board.specs.Due.{until_due};
ghost use Rattle.work_board.specs.Later.{requeued_after};
ghost use Rattle.work_board.specs.Seen.{owner_of, observation_of};
ghost use Rattle.object_keys.specs.Keys.{key_of};
ghost use Rattle.object_keys.specs.WorkKeys.{work_key_of};

use crate::aged_out::AgedOut;
use crate::expected::Expected;
use crate::observation::{Observation, Owner};
use boards::Outcome;
use object_keys::{Key, WorkKey};
use std::alloc::{AllocError, Global};
use std::marker::Model;

/// The last moment of a board, in milliseconds: 2^53 - 1, the greatest number that every JSON reader represents exactly.
const LAST_MOMENT: u64 = 9_007_199_254_740_991;

/// The keys that wait and those in workers' hands, the keys with a delay, the failures in a row, what is expected, and the
/// time in milliseconds.
pub struct Board {
    keys: boards::Board<WorkKey, Expected>,
}

impl Drop for Board {
    // Called where one is dropped; a derived drop is proved anew at each such place.
    fn drop(self) {
        let Board { keys: _keys } = self;
    }
}

impl Model for Board {
    ghost use Rattle.std.specs.Prelude.{◌≤◌};
    ghost use Rattle.spec_client_go.specs.Boards as works;
    ghost use Rattle.spec_client_go.specs.Boards.{last_moment};
    ghost use Rattle.work_board.specs.Instance.{board_of};
    ghost use Rattle.work_board.specs.Seen.{board_code};

    ghost Value = { works.Board };

    ghost coded = { board_code };

    ghost view = { λ b. board_of b.keys };

    ghost invariant = { λ b. b.keys.time ≤ last_moment };
}

impl Board {
    /// Returns a board at time 0 on which nothing waits and nothing is expected.
    pub fn new(alloc: Global) -> Board
        ensures { result ≡ begun }
    {
        Board {
            keys: boards::Board::new(alloc),
        }
    }

    /// Returns the key that waits longest, if one waits. It takes no memory.
    pub fn first(&self) -> Option<&WorkKey>
        ensures { option_map (λ k. work_key_of k.now) result ≡ handed self.now.work }
    {
        self.keys.first()
    }

    /// Hands the key that waits longest to a worker, if one waits. The error is running out of memory, and then nothing has
    /// changed.
    pub fn take_key(&mut self) -> Result<Option<WorkKey>, AllocError>
        ensures ok { OnOk result (self.new ≡ taken self.old) }
        ensures key { IfOk result (λ k. option_map work_key_of k ≡ handed self.old.work) }
        ensures err { OnErr result (self.new ≡ self.old) }
    {
        self.keys.take()
    }

    /// Takes a key back from its worker, and forgets its failures.
    pub fn done(&mut self, key: &WorkKey)
        ensures { self.new ≡ finished (work_key_of key.now) self.old }
    {
        self.keys.done(key);
    }

    /// Takes a key that failed back from its worker: it waits for its delay, and what was not done is expected no longer. The
    /// error is running out of memory, and then nothing has changed.
    pub fn requeue(&mut self, key: &WorkKey, undone: &[Observation]) -> Result<(), AllocError>
        ensures ok { OnOk result (self.new ≡ requeued (work_key_of key.now) (map observation_of undone.now) self.old) }
        ensures err { OnErr result (self.new ≡ self.old) }
    {
        self.requeue_after(key, undone, 0)
    }

    /// Takes a key that failed back from its worker: it waits for its delay, and for at least so many milliseconds, and what was not
    /// done is expected no longer. A key that waits already keeps its moment, where that is earlier. The error is running out of memory,
    /// and then nothing has changed.
    pub fn requeue_after(
        &mut self,
        key: &WorkKey,
        undone: &[Observation],
        least: u32,
    ) -> Result<(), AllocError>
        ensures ok { OnOk result (self.new ≡ requeued_after (work_key_of key.now) (map observation_of undone.now) least self.old) }
        ensures err { OnErr result (self.new ≡ self.old) }
    {
        let at_least = u64::from(least);
        self.keys
            .finish_noting(key, Outcome::Failed { at_least }, undone)
    }

    /// Notes what a change shows of the pods that are expected, and adds the keys that it owes. The error is running out of
    /// memory, and then nothing has changed.
    pub fn observe(
        &mut self,
        observations: &[Observation],
        keys: &[WorkKey],
    ) -> Result<(), AllocError>
        ensures ok { OnOk result (self.new ≡ observed (map observation_of observations.now) (map work_key_of keys.now) self.old) }
        ensures err { OnErr result (self.new ≡ self.old) }
    {
        self.keys.add_noting(keys, observations)
    }

    /// Sets that a ReplicaSet expects so many pods to be created, from now on, and nothing else. The error is running out of
    /// memory, and then nothing has changed.
    pub fn expect_creations(&mut self, owner: &Owner, creations: u32) -> Result<(), AllocError>
        ensures ok { OnOk result (self.new ≡ expecting_creations (owner_of owner.now) creations self.old) }
        ensures err { OnErr result (self.new ≡ self.old) }
    {
        let now = self.keys.time();
        self.keys
            .side_mut()
            .table_mut()
            .expect_creations(&owner.key, owner.uid.as_str(), creations, now)
    }

    /// Sets that a ReplicaSet expects the pods of these uids to be deleted, from now on, and nothing else. The error is running
    /// out of memory, and then nothing has changed.
    pub fn expect_deletions(&mut self, owner: &Owner, pods: Vec<String>) -> Result<(), AllocError>
        ensures ok { OnOk result (self.new ≡ expecting_deletions (owner_of owner.now) (map string_bytes pods.items) self.old) }
        ensures err { OnErr result (self.new ≡ self.old) }
    {
        let now = self.keys.time();
        self.keys
            .side_mut()
            .table_mut()
            .expect_deletions(&owner.key, owner.uid.as_str(), pods, now)
    }

    /// Returns whether a ReplicaSet expects nothing: nothing was set, nothing is left, or more than five minutes have passed.
    pub fn satisfied(&self, owner: &Owner) -> bool
        ensures { result ≡ is_satisfied (owner_of owner.now) self.now }
    {
        let now = self.keys.time();
        self.keys
            .side()
            .table()
            .satisfied(&owner.key, owner.uid.as_str(), now)
    }

    /// Returns the keys of the ReplicaSets that expected something at the moment `before`, and by its age no longer do, with the present
    /// moment: who asks again with that misses none. The error is running out of memory.
    pub fn aged_out(&self, before: u64) -> Result<AgedOut, AllocError>
        ensures { IfOk result (λ a. HaveAgedOut before a.moment (map work_key_of a.keys.items) self.now) }
    {
        let moment = self.keys.time();
        Ok(AgedOut {
            keys: self.keys.side().table().aged_out(before, moment)?,
            moment,
        })
    }

    /// Removes what every ReplicaSet of this key expects, whatever its uid.
    pub fn forget(&mut self, key: &Key)
        ensures { self.new ≡ forgotten (key_of key.now) self.old }
    {
        self.keys.side_mut().table_mut().forget(key);
    }

    /// Lets so many milliseconds pass, adds the keys whose moment has come, and returns true. Beyond the last moment, 2^53 - 1,
    /// nothing changes, and it returns false. The error is running out of memory, and then nothing has changed.
    pub fn tick(&mut self, milliseconds: u64) -> Result<bool, AllocError>
        ensures ok { OnOk result (self.new ≡ ticked milliseconds self.old) }
        ensures open { IfOk result (λ b. b ≡ may_tick milliseconds self.old) }
        ensures err { OnErr result (self.new ≡ self.old) }
    {
        let before = self.keys.time();
        if milliseconds > LAST_MOMENT - before {
            return Ok(false);
        }
        self.keys.tick(before + milliseconds)?;
        Ok(true)
    }

    /// Returns how many milliseconds pass until the next key comes due, if one is delayed. It takes no memory.
    pub fn until_due(&self) -> Option<u64>
        ensures { result ≡ until_due self.now }
    {
        self.keys.until_due()
    }

    /// Returns the time, in milliseconds.
    pub fn time(&self) -> u64
        ensures { result ≡ self.now.time }
    {
        self.keys.time()
    }

    /// Returns how many keys wait.
    pub fn len(&self) -> usize
        ensures { result ≡ length self.now.work.queue }
    {
        self.keys.len()
    }
}

//! A board of keys of any type, whose calls are its steps.
use crate::outcome::Outcome;
use crate::side_table::SideTable;
use keyed_queues::{KeyedBackoff, KeyedDelays, KeyedQueue, Named};
use std::alloc::{AllocError, Global};
use std::marker::Model;

/// The keys that wait and those in workers' hands, the keys with a delay, the failures in a row, the side table, and the time in
/// milliseconds.
pub struct Board<K: Named, S: SideTable> {
    queue: KeyedQueue<K>,
    delays: KeyedDelays<K>,
    backoff: KeyedBackoff<K>,
    side: S,
    time: u64,
    is_shut: bool,
}

impl<K: Named, S: SideTable> Drop for Board<K, S> {
    // Called where one is dropped; a derived drop is proved anew at each such place.
    fn drop(self) {
        let Board {
            queue: _queue,
            delays: _delays,
            backoff: _backoff,
            side: _side,
            time: _time,
            is_shut: _is_shut,
        } = self;
    }
}

impl<K: Named, S: SideTable> Model for Board<K, S> {
    ghost use Rattle.std.specs.Prelude.{◌≡◌};
    ghost use Rattle.boards.specs.Said.{Parts, coded_parts};

    ghost Value = { Parts K S };

    ghost coded = { coded_parts K.code S.code };

    ghost view = { λ b. record { work = b.queue; delays = b.delays; failures = b.backoff; side = b.side; time = b.time } };

    ghost invariant = { λ b. b.is_shut ≡ b.queue.is_shut };
}

impl<K: Named, S: SideTable> Board<K, S> {
    ghost use Rattle.std.specs.Prelude.{◌≡◌, ◌∷◌, [], IfOk, IsOk, OnOk, OnErr, length, map, option_map};
    ghost use Rattle.keyed_queues.specs.Queues.{handed};
    ghost use Rattle.boards.specs.Boards.{begun, with_keys, with_notes, postponed, taken, finished, ticked, until_due, shut_off};
    ghost use Rattle.boards.specs.Said.{said};
    ghost use Rattle.boards.specs.declared.outcome.Outcome.TheVariants.{Done, Failed};

    /// Returns a board at time 0 on which nothing waits.
    pub fn new(alloc: Global) -> Board<K, S>
        ensures { said K.order K.says result ≡ begun S.empty }
    {
        Board {
            queue: KeyedQueue::new(alloc),
            delays: KeyedDelays::new(alloc),
            backoff: KeyedBackoff::new(alloc),
            side: S::new(alloc),
            time: 0,
            is_shut: false,
        }
    }

    /// Adds a key: it waits once, however often it is added, and a key in a worker's hands waits until it is given back. The error is
    /// running out of memory, and then nothing has changed.
    pub fn add(&mut self, key: K) -> Result<(), AllocError>
        ensures ok { OnOk result (said K.order K.says self.new ≡ with_keys (K.says key ∷ []) (said K.order K.says self.old)) }
        ensures err { OnErr result (said K.order K.says self.new ≡ said K.order K.says self.old) }
    {
        self.queue.add(key)?;
        Ok(())
    }

    /// Adds keys one after another, as `add` does. The error is running out of memory, and then none was added.
    pub fn add_all(&mut self, keys: &[K]) -> Result<(), AllocError>
        ensures ok { OnOk result (said K.order K.says self.new ≡ with_keys (map K.says keys.now) (said K.order K.says self.old)) }
        ensures err { OnErr result (said K.order K.says self.new ≡ said K.order K.says self.old) }
    {
        self.queue.add_all(keys)?;
        Ok(())
    }

    /// Adds keys one after another, as `add` does, and notes something in the side table, all in one step. The error is running out of
    /// memory, and then nothing has changed.
    pub fn add_noting(&mut self, keys: &[K], notes: &[S::Note]) -> Result<(), AllocError>
        ensures ok { OnOk result (said K.order K.says self.new ≡ with_notes S.noted notes.now (with_keys (map K.says keys.now) (said K.order K.says self.old))) }
        ensures err { OnErr result (said K.order K.says self.new ≡ said K.order K.says self.old) }
    {
        self.add_all(keys)?;
        note_all(&mut self.side, notes);
        Ok(())
    }

    /// Adds a key when so many milliseconds have passed. A key that is delayed twice keeps the earlier moment. The error is running out
    /// of memory, and then nothing has changed.
    pub fn add_after(&mut self, key: K, milliseconds: u64) -> Result<(), AllocError>
        ensures ok { OnOk result (said K.order K.says self.new ≡ postponed (K.says key) milliseconds (said K.order K.says self.old)) }
        ensures err { OnErr result (said K.order K.says self.new ≡ said K.order K.says self.old) }
    {
        let moment = self.time.saturating_add(milliseconds);
        self.delays.add_after(key, moment)
    }

    /// Returns the key that waits longest, if one waits. It takes no memory.
    pub fn first(&self) -> Option<&K>
        ensures { option_map (λ k. K.says k.now) result ≡ handed (said K.order K.says self.now).work }
    {
        self.queue.first()
    }

    /// Hands the key that waits longest to a worker, if one waits. The error is running out of memory, and then nothing has
    /// changed.
    pub fn take(&mut self) -> Result<Option<K>, AllocError>
        ensures ok { OnOk result (said K.order K.says self.new ≡ taken (said K.order K.says self.old)) }
        ensures key { IfOk result (λ k. option_map K.says k ≡ handed (said K.order K.says self.old).work) }
        ensures err { OnErr result (said K.order K.says self.new ≡ said K.order K.says self.old) }
    {
        self.queue.get()
    }

    /// Takes a key back from its worker, and forgets its failures. It takes no memory.
    pub fn done(&mut self, key: &K)
        ensures { said K.order K.says self.new ≡ finished (K.says key.now) Done (said K.order K.says self.old) }
    {
        self.queue.done(key);
        self.backoff.forget(key);
    }

    /// Takes a key back from its worker. Unless all is done it is added again after a while: as long as the worker says, or after a
    /// failure 5 milliseconds, twice as long after each that follows, and at most 1,000 seconds, where it is not to wait for longer. The
    /// error is running out of memory, and then nothing has changed.
    pub fn finish(&mut self, key: &K, outcome: Outcome) -> Result<(), AllocError>
        ensures ok { OnOk result (said K.order K.says self.new ≡ finished (K.says key.now) outcome (said K.order K.says self.old)) }
        ensures err { OnErr result (said K.order K.says self.new ≡ said K.order K.says self.old) }
        ensures done { outcome ≡ Done → IsOk result }
    {
        match outcome {
            Outcome::Done => {
                self.done(key);
                Ok(())
            }
            Outcome::LookAgain { milliseconds } => {
                self.add_after(key.try_copy()?, milliseconds)?;
                self.done(key);
                Ok(())
            }
            Outcome::Failed { at_least } => self.fail(key, at_least),
        }
    }

    /// Takes a key back from its worker as `finish` does, and notes something in the side table, all in one step. The error is running
    /// out of memory, and then nothing has changed.
    pub fn finish_noting(
        &mut self,
        key: &K,
        outcome: Outcome,
        notes: &[S::Note],
    ) -> Result<(), AllocError>
        ensures ok { OnOk result (said K.order K.says self.new
            ≡ with_notes S.noted notes.now (finished (K.says key.now) outcome (said K.order K.says self.old))) }
        ensures err { OnErr result (said K.order K.says self.new ≡ said K.order K.says self.old) }
    {
        self.finish(key, outcome)?;
        note_all(&mut self.side, notes);
        Ok(())
    }

    /// Takes a key that failed back from its worker.
    fn fail(&mut self, key: &K, at_least: u64) -> Result<(), AllocError>
        ensures ok { OnOk result (said K.order K.says self.new ≡ finished (K.says key.now) (Failed at_least) (said K.order K.says self.old)) }
        ensures err { OnErr result (said K.order K.says self.new ≡ said K.order K.says self.old) }
    {
        let again = key.try_copy()?;
        let before = self.backoff.failures(key);
        let delay = self.backoff.delay(key)?;
        let wait = delay.max(at_least);
        let moment = self.time.saturating_add(wait);
        if let Err(refused) = self.delays.add_after(again, moment) {
            self.backoff.restore(key, before);
            return Err(refused);
        }
        self.queue.done(key);
        Ok(())
    }

    /// Sets what moment it is, unless it is later, and adds the keys whose moment has come. The error is running out of memory, and
    /// then nothing has changed.
    pub fn tick(&mut self, now: u64) -> Result<(), AllocError>
        ensures ok { OnOk result (said K.order K.says self.new ≡ ticked now (said K.order K.says self.old)) }
        ensures err { OnErr result (said K.order K.says self.new ≡ said K.order K.says self.old) }
    {
        let now = self.time.max(now);
        let keys = self.delays.due_keys(now)?;
        self.queue.add_all(&keys)?;
        self.delays.drop_due(now);
        self.time = now;
        Ok(())
    }

    /// Returns how many milliseconds pass until the next key comes due, if one is delayed. It takes no memory.
    pub fn until_due(&self) -> Option<u64>
        ensures { result ≡ until_due (said K.order K.says self.now) }
    {
        let moment = self.delays.next_moment()?;
        Some(moment.saturating_sub(self.time))
    }

    /// Returns the time, in milliseconds.
    pub fn time(&self) -> u64
        ensures { result ≡ (said K.order K.says self.now).time }
    {
        self.time
    }

    /// Returns the side table.
    pub fn side(&self) -> &S
        ensures { result.now ≡ (said K.order K.says self.now).side }
    {
        &self.side
    }

    /// Returns how many keys wait.
    pub fn len(&self) -> usize
        ensures { result ≡ length (said K.order K.says self.now).work.queue }
    {
        self.queue.len()
    }

    /// Shuts the board down: from now on nothing is added; what waits is still handed out. It takes no memory.
    pub fn shut_down(&mut self)
        ensures { said K.order K.says self.new ≡ shut_off (said K.order K.says self.old) }
    {
        let Board { queue, is_shut, .. } = self;
        queue.shut_down();
        *is_shut = true;
    }

    /// Returns whether the board is shut down.
    pub fn is_shut(&self) -> bool
        ensures { result ≡ (said K.order K.says self.now).work.is_shut }
    {
        self.is_shut
    }
}

impl<K: Named, S: SideTable> Board<K, S> {
    ghost use Rattle.std.specs.Prelude.{◌≡◌};
    ghost use Rattle.std.specs.Borrow.{Lends, sem};
    ghost use Rattle.boards.specs.contracts.board.Board.{the_row};

    /// Returns a reference through which the side table can be changed.
    pub fn side_mut(&mut self) -> &mut S
        ensures value { result.now ≡ self.old.side }
        ensures* writes_back { sem 𝓛 (Lends (the_row K.row S.row S.Note.row K.Named.own K.Ord.own K.Eq.own K.PartialEq.own K.PartialOrd.own S.SideTable) S.row self.entry result (λ t. record self.old { side = t })) }
    {
        &mut self.side
    }
}

ghost use Rattle.std.specs.Prelude.{◌≡◌};
ghost use Rattle.boards.specs.Boards.{all_noted};

/// Notes one thing after another.
fn note_all<S: SideTable>(side: &mut S, notes: &[S::Note])
    ensures { side.new ≡ all_noted S.noted notes.now side.old }
{
    for note in notes {
        side.note(note);
    }
}

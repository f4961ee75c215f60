//! What threads tell one another.
ghost use Rattle.std.specs.Prelude.{◌≡◌, ◌<◌, IfSome, is_some, true};

use crate::time_signals::TimeSignals;
use spec_api::kinds::Kind;
use std::sync::Wait;
use std::sync::atomic::{AtomicU64, Ordering};
use std::time::Clock;
use wakeups::{Bell, Stop};

/// How many kinds are followed.
const KINDS: u64 = Kind::ALL.len() as u64;

/// How many milliseconds a thread that waits for a ring sleeps at most.
const LONGEST_SLEEP: u64 = 1000;

/// What the threads of a controller manager tell one another beside their board.
#[derive(Drop)]
pub struct Signals {
    /// Tells all threads to stop.
    pub stop: Stop,
    /// Wake who lets time pass at the board, and who waits for that.
    pub time: TimeSignals,
    /// Rings when a key may wait.
    work: Bell,
    /// How many kinds have published their first list.
    listed: Bell,
    /// How many turns were finished.
    finished: AtomicU64,
    /// After how many turns all threads stop, if they do.
    most_turns: Option<u64>,
    /// 1 once the server has lost its memory or is another one: what is published is older than what was published before it, or shows
    /// another server, or a follower has found one.
    lost: AtomicU64,
}

impl Signals {
    /// Returns the signals of a manager that stops after so many turns, if a number is given.
    pub const fn new(most_turns: Option<u64>) -> Signals {
        Signals {
            stop: Stop::new(),
            time: TimeSignals::new(),
            work: Bell::new(),
            listed: Bell::new(),
            finished: AtomicU64::new(0),
            most_turns,
            lost: AtomicU64::new(0),
        }
    }

    /// Returns how often work was announced: to be read before who then waits looks for a key.
    pub fn work_seen(&self) -> u64 {
        self.work.count()
    }

    /// Wakes the workers that wait for a key.
    pub fn announce_work(&self) {
        self.work.ring();
    }

    /// Waits until work is announced past what was seen, for a second at most.
    pub fn await_work<R: Wait + Clock>(&self, rt: &R, seen: u64) {
        let _ = self.work.wait(rt, seen, LONGEST_SLEEP);
    }

    /// Notes that a kind has published its first list.
    pub fn note_listed(&self) {
        self.listed.ring();
    }

    /// Waits until each kind has published its first list, and returns true; false where all threads are to stop before that.
    pub fn await_lists<R: Wait + Clock>(&self, rt: &R) -> bool {
        for _ in rt.forever() {
            // Read first: a stop that comes after is a ring past it.
            let listed = self.listed.count();
            if self.stop.is_stopped() {
                return false;
            }
            if listed >= KINDS {
                return true;
            }
            let _ = self.listed.wait(rt, listed, LONGEST_SLEEP);
        }
        unreachable!()
    }

    /// Counts a turn that was finished; all threads stop after the last one.
    pub fn note_finished(&self) {
        let before = self.finished.fetch_add(1, Ordering::SeqCst);
        if let Some(most) = self.most_turns {
            if most <= before.saturating_add(1) {
                self.stop_all();
            }
        }
    }

    /// Returns after how many more turns all threads stop, if they do.
    pub fn turns_left(&self) -> Option<u64>
        ensures { IfSome result (λ left. 0 < left) }
    {
        let finished = self.finished.load(Ordering::SeqCst);
        self.most_turns
            .map(|most| most.saturating_sub(finished).max(1))
    }

    /// Returns whether as many turns were finished as all threads stop after; never where they stop after no number of them.
    pub fn has_finished(&self) -> bool
        ensures { result ≡ true → is_some self.now.most_turns ≡ true }
    {
        match self.most_turns {
            Some(most) => most <= self.finished.load(Ordering::SeqCst),
            None => false,
        }
    }

    /// Tells all threads to stop, and wakes those that wait.
    pub fn stop_all(&self) {
        self.stop.stop();
        self.time.wake_all();
        self.work.ring();
        self.listed.ring();
    }

    /// Notes that the server has lost its memory or is another one: what is published is older than what was published before it, or shows
    /// another server, or a follower has found one. All threads stop.
    pub fn note_lost(&self) {
        self.lost.store(1, Ordering::SeqCst);
        self.stop_all();
    }

    /// Returns whether it was noted that the server has lost its memory or is another one.
    pub fn has_lost(&self) -> bool {
        self.lost.load(Ordering::SeqCst) != 0
    }
}

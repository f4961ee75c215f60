//! Time that passes at the board.
ghost use Rattle.std.specs.Prelude.{◌≤◌};
ghost use Rattle.control_desk.specs.Desks.{known, IsPassAt};
ghost use Rattle.manager.specs.Passed.{passed_in};

use control_desk::{ControlDesk, WorkPass};
use manager_worker::Signals;
use std::alloc::AllocError;
use std::sync::Wait;
use std::time::Clock;
use tcp_client::StoppableClock;

/// How many milliseconds are waited for memory.
const PAUSE_MILLISECONDS: u64 = 5;

/// How many milliseconds lie between two looks for expectations that aged out: each goes over all that is expected.
const LOOK_MILLISECONDS: u64 = 1_000;

/// What lets time pass at the board: no more than passes on the clock, of which a fall is no time (`metadata_values::stopwatch::Stopwatch`). It also
/// wakes the keys of ReplicaSets that wait for what is never seen, as a pod whose create was lost on the way: nothing else adds them when
/// their expectations age out.
///
/// It sleeps until the next key comes due, for a second at most, in which it looks for such ReplicaSets. The board's time stands still
/// meanwhile. Who gives back a key with a delay catches up with it first, and wakes this after (`manager_worker::TimeSignals`): so the key waits
/// for its delay by the clock as well, and comes when that is over. What is expected from then on ages out by as much sooner as the board's time
/// is behind, by a second of five minutes at most.
#[derive(Drop)]
pub struct Ticker<'a, R> {
    rt: &'a R,
    desk: &'a ControlDesk,
    pass: WorkPass,
    signals: &'a Signals,
    /// So many milliseconds were let pass: it is this moment at the board.
    passed: u64,
    /// Until this moment of the board, those whose expectations aged out are woken.
    woken: u64,
    ghost sits: { IsPassAt desk.now pass },
    ghost counted: { passed_in (known pass).made ≤ passed },
}

impl<'a, R: Wait + Clock> Ticker<'a, R> {
    ghost use Rattle.std.specs.Prelude.{◌≡◌, ◌+◌, ◌-◌, ◌<◌, ◌⊎◌, None, OnOk, OnErr};
    ghost use Rattle.control_desk.specs.Calls.{IsCall, Nothing};
    ghost use Rattle.control_desk.specs.Desks.{known, IsNewAt};
    ghost use Rattle.control_desk.specs.Steps as steps;
    ghost use Rattle.manager.specs.Handled.{HasWaited};
    ghost use Rattle.manager.specs.Resting.{rest_before};
    ghost use Rattle.manager.specs.Woken.{Wakes};

    /// Returns what lets time pass, before any has.
    pub fn new(
        rt: &'a R,
        desk: &'a ControlDesk,
        pass: WorkPass,
        signals: &'a Signals,
    ) -> Ticker<'a, R>
        requires { IsNewAt desk.now pass }
        ensures { (result.passed ≡ 0) × (result.woken ≡ 0) }
    {
        Ticker {
            rt,
            desk,
            pass,
            signals,
            passed: 0,
            woken: 0,
        }
    }

    /// Lets so many milliseconds pass as the clock went on since the tick before, by how long it went on in all. The error is running out of
    /// memory: then none pass, and they do at the next tick.
    fn tick(&mut self, moment: u64) -> Result<(), AllocError>
        ensures ok { OnOk result (IsCall (known self.old.pass)
            (steps.changing (steps.tick (moment - self.old.passed))) Nothing (known self.new.pass)) }
        ensures passed { OnOk result (self.new.passed ≡ self.old.passed + (moment - self.old.passed)) }
        ensures err { OnErr result (HasWaited (known self.old.pass) (known self.new.pass)) }
        ensures still { OnErr result (self.new.passed ≡ self.old.passed) }
        ensures woken { self.new.woken ≡ self.old.woken }
    {
        let milliseconds = moment.saturating_sub(self.passed);
        self.desk.tick(self.rt, &mut self.pass, milliseconds)?;
        self.passed += milliseconds;
        Ok(())
    }

    /// Adds the keys of the ReplicaSets whose expectations aged out since it was done last. The error is running out of memory: then none are
    /// added, and they are the next time.
    fn wake(&mut self) -> Result<(), AllocError>
        ensures ok { OnOk result (Wakes self.old.woken self.new.woken (known self.old.pass) (known self.new.pass)) }
        ensures err { OnErr result (HasWaited (known self.old.pass) (known self.new.pass)) }
        ensures still { OnErr result (self.new.woken ≡ self.old.woken) }
        ensures passed { self.new.passed ≡ self.old.passed }
    {
        let aged = self.desk.aged_out(self.rt, &mut self.pass, self.woken)?;
        self.desk
            .add(self.rt, &mut self.pass, aged.keys.as_slice())?;
        self.woken = aged.moment;
        Ok(())
    }

    /// Wakes those whose expectations aged out, unless that was done within the last second. The error is running out of memory: then none
    /// are woken, and they are the next time.
    fn wake_in_time(&mut self) -> Result<(), AllocError>
        ensures ok { OnOk result ((self.old.passed < self.old.woken + 1000)
            ⊎ Wakes self.old.woken self.new.woken (known self.old.pass) (known self.new.pass)) }
        ensures still { OnErr result (self.new.woken ≡ self.old.woken) }
        ensures passed { self.new.passed ≡ self.old.passed }
    {
        if self.passed.saturating_sub(self.woken) < LOOK_MILLISECONDS {
            return Ok(());
        }
        self.wake()
    }

    /// Wakes the workers where a key waits.
    fn announce(&mut self)
        ensures waited { HasWaited (known self.old.pass) (known self.new.pass) }
        ensures passed { self.new.passed ≡ self.old.passed }
        ensures woken { self.new.woken ≡ self.old.woken }
    {
        if self.desk.has_waiting(self.rt, &mut self.pass) {
            self.signals.announce_work();
        }
    }

    /// Returns for how many milliseconds there is nothing to do: until the next key comes due, and not beyond the next look for expectations
    /// that aged out; one at least.
    fn rest(&mut self) -> u64
        ensures rest { IsCall (known self.old.pass) (λ s. None)
            (λ s. result ≡ rest_before self.old.passed self.old.woken s.board) (known self.new.pass) }
        ensures some { 0 < result }
        ensures passed { self.new.passed ≡ self.old.passed }
        ensures woken { self.new.woken ≡ self.old.woken }
    {
        let since = self.passed.saturating_sub(self.woken);
        let until_look = LOOK_MILLISECONDS.saturating_sub(since);
        let until_due = self.desk.until_due(self.rt, &mut self.pass);
        until_due.unwrap_or(until_look).min(until_look).max(1)
    }

    /// Lets time pass as the clock went on in all, wakes those whose expectations aged out, and then the workers where a key waits. Who asked
    /// for time as often as was seen before the clock was looked at is told. Returns for how many milliseconds there is nothing to do then; where
    /// memory ran out, after how many it is done again.
    fn go_on(&mut self, moment: u64, asked: u64) -> u64
        ensures { 0 < result }
    {
        let ticked = self.tick(moment);
        let woken = self.wake_in_time();
        // What is due next is looked at before anybody goes on who delays a key: its ring ends the sleep.
        let rest = self.rest();
        if ticked.is_ok() {
            self.signals.time.note_passed(asked);
        }
        self.announce();
        if ticked.is_ok() && woken.is_ok() {
            rest
        } else {
            PAUSE_MILLISECONDS
        }
    }

    /// Lets time pass as the clock shows it, until all is to stop, and sleeps until something is due.
    pub fn run(&mut self) {
        let mut clock = StoppableClock::new(self.rt, &self.signals.stop);
        for _ in self.rt.forever() {
            let asked = self.signals.time.count_asked();
            if self.signals.stop.is_stopped() {
                return;
            }
            let rest = self.go_on(clock.milliseconds(), asked);
            self.signals.time.sleep(self.rt, asked, rest);
        }
    }
}

//! A whole turn.
ghost use Rattle.std.specs.Prelude.{◌≡◌, [], None, Some, OnOk, OnErr, map, true, false};
ghost use Rattle.spec_sim.specs.NextSteps.{next, finish};
ghost use Rattle.control_desk.specs.Desks.{known, key_in_hand, IsPassAt};
ghost use Rattle.control_desk.specs.Steps as steps;
ghost use Rattle.object_keys.specs.WorkKeys.{work_key_of};
ghost use Rattle.work_board.specs.Seen.{observation_of};
ghost use Rattle.manager_worker.specs.Patience.{heard};
ghost use Rattle.manager_worker.specs.Stepping.{in_turn, OnlySees, Sees};
ghost use Rattle.manager_worker.specs.Ending.{giving_back, course_of, is_over, Makes, Follows, Advances, IsTakenUntilOver, IsCutShort};

use crate::gates::Gate;
use crate::looking::Looking;
use crate::steps::Progress;
use crate::tools::Tools;
use api_client::Api;
use control_desk::{ControlDesk, Observation, TakenKey, WorkPass};
use object_keys::WorkKey;
use reconcile_turn::{NextStep, Turn};
use std::alloc::AllocError;
use std::sync::Wait;
use std::time::Clock;

/// How many milliseconds a worker waits before it tries a step again.
const PAUSE_MILLISECONDS: u64 = 50;

/// How a turn goes on.
#[derive(Clone, Copy)]
pub enum Course {
    /// Its next step is to be taken.
    GoesOn,
    /// It is over, at its end or given up, and its key is given back.
    Over,
    /// It is left where it is, as all is to stop.
    CutShort,
}

/// Returns whether a turn's plan is made.
fn is_planned(turn: &Turn) -> bool {
    matches!(
        turn.next(),
        NextStep::Expect | NextStep::Issue(_) | NextStep::Finish
    )
}

impl<R: Wait + Clock, L: Looking + Drop, A: Api + Drop, G: Gate> Tools<'_, R, L, A, G> {
    /// Gives back a key that failed: it waits for its delay, and for as long as the server has asked to be left alone, and what was not done
    /// is expected no longer. The board's time may have stood still for a while, so it is caught up with first: the delay counts from now.
    fn requeue(
        &self,
        desk: &ControlDesk,
        pass: &mut WorkPass,
        key: &WorkKey,
        undone: &[Observation],
        patience: u32,
    ) -> Result<(), AllocError>
        requires pass { IsPassAt desk.now pass.old }
        requires mine { key_in_hand pass.old ≡ Some (work_key_of key.now) }
        ensures pass { IsPassAt desk.now pass.new }
        ensures makes { OnOk result (Makes (steps.requeue (work_key_of key.now) (map observation_of undone.now) patience) (known pass.old) (known pass.new)) }
        ensures sees { OnErr result (Sees (known pass.old) (known pass.new)) }
        ensures ok { OnOk result (key_in_hand pass.new ≡ None) }
        ensures err { OnErr result (key_in_hand pass.new ≡ key_in_hand pass.old) }
    {
        let signals = self.signals;
        signals.time.catch_up(self.rt, &signals.stop);
        desk.requeue_after(self.rt, pass, key, undone, patience)?;
        signals.time.note_delay();
        Ok(())
    }

    /// Gives back the key of a turn that is at its end; unless all was accepted it waits for its delay, and for as long as the server has
    /// asked to be left alone, and what was not done is expected no longer.
    fn finish(
        &self,
        desk: &ControlDesk,
        pass: &mut WorkPass,
        turn: &Turn,
        key: &WorkKey,
        patience: u32,
    ) -> Result<(), AllocError>
        requires pass { IsPassAt desk.now pass.old }
        requires mine { key_in_hand pass.old ≡ Some (work_key_of key.now) }
        requires finish { next turn.now ≡ finish }
        ensures pass { IsPassAt desk.now pass.new }
        ensures makes { OnOk result (Makes (giving_back key.now finish turn.now patience) (known pass.old) (known pass.new)) }
        ensures sees { OnErr result (OnlySees (known pass.old) (known pass.new)) }
        ensures ok { OnOk result (key_in_hand pass.new ≡ None) }
        ensures err { OnErr result (key_in_hand pass.new ≡ key_in_hand pass.old) }
    {
        if turn.is_accepted() {
            desk.done(self.rt, pass, key);
            return Ok(());
        }
        let undone = turn.taken_back(self.alloc)?;
        self.requeue(desk, pass, key, undone.as_slice(), patience)
    }

    /// Gives back the key of a turn that is given up: it waits for its delay, and for as long as the server has asked to be left alone.
    /// Nothing was expected yet that is to be taken back.
    fn give_up(
        &self,
        desk: &ControlDesk,
        pass: &mut WorkPass,
        key: &WorkKey,
        patience: u32,
    ) -> Result<(), AllocError>
        requires pass { IsPassAt desk.now pass.old }
        requires mine { key_in_hand pass.old ≡ Some (work_key_of key.now) }
        ensures pass { IsPassAt desk.now pass.new }
        ensures makes { OnOk result (Makes (steps.requeue (work_key_of key.now) [] patience) (known pass.old) (known pass.new)) }
        ensures sees { OnErr result (Sees (known pass.old) (known pass.new)) }
        ensures ok { OnOk result (key_in_hand pass.new ≡ None) }
        ensures err { OnErr result (key_in_hand pass.new ≡ key_in_hand pass.old) }
    {
        self.requeue(desk, pass, key, &[], patience)
    }

    /// Does what is left to do after a step that was not its turn's end, and returns how the turn goes on: before a step is tried again it
    /// pauses, and where the turn is given up it gives back its key.
    fn go_on(
        &self,
        desk: &ControlDesk,
        pass: &mut WorkPass,
        key: &WorkKey,
        progress: Progress,
        patience: u32,
    ) -> Result<Course, AllocError>
        requires pass { IsPassAt desk.now pass.old }
        requires mine { key_in_hand pass.old ≡ Some (work_key_of key.now) }
        ensures pass { IsPassAt desk.now pass.new }
        ensures follows { Follows key.now patience progress (known pass.old) (known pass.new) (course_of result) }
        ensures free { is_over (course_of result) ≡ true → key_in_hand pass.new ≡ None }
        ensures mine { is_over (course_of result) ≡ false → key_in_hand pass.new ≡ key_in_hand pass.old }
    {
        match progress {
            Progress::GivenUp => {
                self.give_up(desk, pass, key, patience)?;
                Ok(Course::Over)
            }
            Progress::Again => {
                self.signals.stop.rest(self.rt, PAUSE_MILLISECONDS);
                Ok(Course::GoesOn)
            }
            Progress::Went | Progress::AtEnd => Ok(Course::GoesOn),
            Progress::CutShort => Ok(Course::CutShort),
        }
    }

    /// Takes the next step of a turn, and returns how the turn goes on: where it is over, at its end or given up, its key is given back.
    fn advance(
        &mut self,
        desk: &ControlDesk,
        pass: &mut WorkPass,
        turn: &mut Turn,
        taken: &TakenKey,
        patience: &mut u32,
    ) -> Result<Course, AllocError>
        requires pass { IsPassAt desk.now pass.old }
        requires mine { key_in_hand pass.old ≡ Some (work_key_of taken.now.key) }
        ensures pass { IsPassAt desk.now pass.new }
        ensures free { is_over (course_of result) ≡ true → key_in_hand pass.new ≡ None }
        ensures mine { is_over (course_of result) ≡ false → key_in_hand pass.new ≡ key_in_hand pass.old }
        ensures advances { Advances L.shows A.answers taken.now.handled taken.now.key (in_turn turn.old self.old.listers (heard self.old.api patience.old) (known pass.old))
            (in_turn turn.new self.new.listers (heard self.new.api patience.new) (known pass.new)) (course_of result) }
    {
        if let NextStep::Finish = turn.next() {
            self.finish(desk, pass, turn, &taken.key, *patience)?;
            return Ok(Course::Over);
        }
        let was_planned = is_planned(turn);
        let progress = self.step(desk, pass, turn, &taken.handled, patience)?;
        if !was_planned && is_planned(turn) {
            self.gate.after(&taken.key);
        }
        self.go_on(desk, pass, &taken.key, progress, *patience)
    }

    /// Takes the next step of a turn, and returns how the turn goes on. A step for which memory runs out is to be tried again, after a
    /// pause.
    fn advance_or_rest(
        &mut self,
        desk: &ControlDesk,
        pass: &mut WorkPass,
        turn: &mut Turn,
        taken: &TakenKey,
        patience: &mut u32,
    ) -> Course
        requires pass { IsPassAt desk.now pass.old }
        requires mine { key_in_hand pass.old ≡ Some (work_key_of taken.now.key) }
        ensures pass { IsPassAt desk.now pass.new }
        ensures free { is_over result ≡ true → key_in_hand pass.new ≡ None }
        ensures mine { is_over result ≡ false → key_in_hand pass.new ≡ key_in_hand pass.old }
        ensures advances { Advances L.shows A.answers taken.now.handled taken.now.key (in_turn turn.old self.old.listers (heard self.old.api patience.old) (known pass.old))
            (in_turn turn.new self.new.listers (heard self.new.api patience.new) (known pass.new)) result }
    {
        match self.advance(desk, pass, turn, taken, patience) {
            Ok(course) => course,
            Err(_) => {
                self.signals.stop.rest(self.rt, PAUSE_MILLISECONDS);
                Course::GoesOn
            }
        }
    }

    /// Takes the steps of a turn until it is over, at its end or given up, and its key is given back, and returns true; false where all is to
    /// stop before, and then the key is still in the hands of the pass. No look is older than what was handled before the key was taken.
    pub fn turn(
        &mut self,
        desk: &ControlDesk,
        pass: &mut WorkPass,
        taken: &TakenKey,
        turn: Turn,
    ) -> bool
        requires pass { IsPassAt desk.now pass.old }
        requires mine { key_in_hand pass.old ≡ Some (work_key_of taken.now.key) }
        ensures pass { IsPassAt desk.now pass.new }
        ensures free { result ≡ true → key_in_hand pass.new ≡ None }
        ensures mine { result ≡ false → key_in_hand pass.new ≡ key_in_hand pass.old }
        ensures over { result ≡ true → IsTakenUntilOver L.shows A.answers taken.now.handled taken.now.key (in_turn turn self.old.listers (heard self.old.api 0) (known pass.old))
            self.new.listers self.new.api (known pass.new) }
        ensures cut { result ≡ false → IsCutShort L.shows A.answers taken.now.handled (in_turn turn self.old.listers (heard self.old.api 0) (known pass.old))
            self.new.listers self.new.api (known pass.new) }
    {
        let mut turn = turn;
        let mut patience = 0;
        for _ in self.rt.forever() {
            if self.signals.stop.is_stopped() {
                return false;
            }
            match self.advance_or_rest(desk, pass, &mut turn, taken, &mut patience) {
                Course::GoesOn => {}
                Course::Over => return true,
                Course::CutShort => return false,
            }
        }
        unreachable!()
    }
}

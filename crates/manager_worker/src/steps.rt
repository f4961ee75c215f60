//! The steps of a turn.
ghost use Rattle.std.specs.Prelude.{◌≡◌, ◌⊎◌, Some, IfOk, IfSome, OnErr, is_some, true, false};
ghost use Rattle.object_keys.specs.Keys.{key_of};
ghost use Rattle.request_parts.specs.Requests.{request_of};
ghost use Rattle.spec_api.specs.ObjectRequests.{get_object};
ghost use Rattle.spec_sim.specs.NextSteps as steps;
ghost use Rattle.spec_sim.specs.NextSteps.{next, look, ask_satisfied};
ghost use Rattle.spec_sim.specs.Turns.{lost};
ghost use Rattle.control_desk.specs.Desks.{known, key_in_hand, IsPassAt};
ghost use Rattle.reconcile_turn.specs.Seen.{answer_of, answered_to, command_issued, expectation};
ghost use Rattle.manager_worker.specs.Finding.{Adds, FoundBy};
ghost use Rattle.manager_worker.specs.Learning.{AsksOnce, AsksAtMost};
ghost use Rattle.manager_worker.specs.Patience.{Hears, heard};
ghost use Rattle.manager_worker.specs.Stepping.{Looks, Asks, Reads, Expects, Notes, Heeds, Issues, Steps, in_turn, told};

use crate::answers::{Learnt, learnt_of};
use crate::looking::Looking;
use crate::patience::note;
use crate::tools::Tools;
use api_client::Api;
use control_desk::{ControlDesk, WorkPass};
use http_client::statuses::BAD_REQUEST;
use live_reads::{FoundObject, can_be, found_in};
use object_keys::{Key, PerKind};
use reconcile_turn::{CommandAnswer, Expected, NextStep, Sight, Turn};
use request_encoding::can_be_told;
use request_parts::Request;
use spec_api::kinds::Kind;
use std::alloc::AllocError;
use std::sync::Wait;
use std::time::Clock;

/// What came of a step.
#[derive(Clone, Copy)]
pub enum Progress {
    /// It was taken.
    Went,
    /// It was not, and is to be tried again.
    Again,
    /// It was not, and the turn is given up: a server refused a live read, or what is published is older than the key.
    GivenUp,
    /// It is the end of the turn.
    AtEnd,
    /// It was taken, and how the command was answered is not noted, as all is to stop: the turn is left where it is.
    CutShort,
}

/// How many milliseconds a worker that lacks memory waits before it notes an answer.
const PAUSE_MILLISECONDS: u64 = 10;

/// Adds to a turn what was found under the key that is read live next. Where a server refused to say it, the turn is given up: it may go on
/// to refuse this key alone. Where no reply came the key is to be read again, as the server is away for all keys.
fn add_found(turn: &mut Turn, key: &Key, found: FoundObject) -> Result<Progress, AllocError>
    requires { next turn.old ≡ steps.read (key_of key.now) }
    ensures ok { IfOk result (λ p. Adds found (key_of key.now) turn.old turn.new p) }
    ensures err { OnErr result (turn.new ≡ turn.old) }
{
    match found {
        FoundObject::Present(object) => {
            turn.add_read(Some(object))?;
            Ok(Progress::Went)
        }
        FoundObject::Absent => {
            turn.add_read(None)?;
            Ok(Progress::Went)
        }
        FoundObject::Refused => Ok(Progress::GivenUp),
        FoundObject::Unanswered => Ok(Progress::Again),
    }
}

impl<R: Wait + Clock, L: Looking + Drop, A: Api + Drop, G> Tools<'_, R, L, A, G> {
    /// Looks at what is published of a kind. Where that is older than what was handled of this kind before the key was taken, the turn is given
    /// up: it shows nothing of the change that owed the key.
    fn look(
        &mut self,
        turn: &mut Turn,
        kind: Kind,
        handled: &PerKind<u64>,
    ) -> Result<Progress, AllocError>
        requires { next turn.old ≡ look kind }
        ensures looks { Looks L.shows handled.now kind turn.old self.old.listers turn.new self.new.listers (told result) }
        ensures api { self.new.api ≡ self.old.api }
    {
        let Some(published) = self.listers.published(kind)? else {
            return Ok(Progress::Again);
        };
        if published.revision() < *handled.get(kind) {
            return Ok(Progress::GivenUp);
        }
        turn.see(Sight::Looked(kind, published))?;
        Ok(Progress::Went)
    }

    /// Asks whether all pods that are expected have been seen; of a ReplicaSet that is no longer there nothing is expected.
    fn ask_satisfied(
        &self,
        desk: &ControlDesk,
        pass: &mut WorkPass,
        turn: &mut Turn,
    ) -> Result<Progress, AllocError>
        requires pass { IsPassAt desk.now pass.old }
        requires next { next turn.old ≡ ask_satisfied }
        ensures pass { IsPassAt desk.now pass.new }
        ensures key { key_in_hand pass.new ≡ key_in_hand pass.old }
        ensures asks { Asks turn.old (known pass.old) turn.new (known pass.new) (told result) }
    {
        let key = turn.key().key.try_copy()?;
        match turn.owner(self.alloc)? {
            Some(owner) => {
                let is_satisfied = desk.satisfied(self.rt, pass, &owner);
                turn.see(Sight::Satisfied(is_satisfied))?;
                Ok(Progress::Went)
            }
            None => {
                turn.see(Sight::Satisfied(true))?;
                desk.forget(self.rt, pass, &key);
                Ok(Progress::Went)
            }
        }
    }

    /// Returns what is there under a key: an object that cannot be is absent without being asked for. It notes for how long the server
    /// asks to be left alone.
    fn find(&mut self, key: &Key, patience: &mut u32) -> Result<FoundObject, AllocError>
        ensures found { IfOk result (λ found. FoundBy (Hears A.answers) (key_of key.now) (heard self.old.api patience.old) found
            (heard self.new.api patience.new)) }
        ensures err { OnErr result (AsksAtMost (Hears A.answers) (heard self.old.api patience.old) (get_object (key_of key.now))
            (heard self.new.api patience.new)) }
        ensures listers { self.new.listers ≡ self.old.listers }
    {
        if !can_be(key) {
            return Ok(FoundObject::Absent);
        }
        let request = Request::Get(key.try_copy()?);
        let answer = self.api.call(self.alloc, &request);
        drop(request);
        note(patience, &answer);
        found_in(self.alloc, key, &answer)
    }

    /// Reads what is there under the key that is read live next.
    fn read_live(
        &mut self,
        turn: &mut Turn,
        key: &Key,
        patience: &mut u32,
    ) -> Result<Progress, AllocError>
        requires { next turn.old ≡ steps.read (key_of key.now) }
        ensures reads { Reads (Hears A.answers) (key_of key.now) turn.old (heard self.old.api patience.old) turn.new (heard self.new.api patience.new)
            (told result) }
        ensures listers { self.new.listers ≡ self.old.listers }
    {
        let found = self.find(key, patience)?;
        add_found(turn, key, found)
    }

    /// Expects what the plan makes of pods.
    fn expect(
        &self,
        desk: &ControlDesk,
        pass: &mut WorkPass,
        turn: &mut Turn,
    ) -> Result<Progress, AllocError>
        requires pass { IsPassAt desk.now pass.old }
        requires next { is_some (expectation (next turn.old)) ≡ true }
        ensures pass { IsPassAt desk.now pass.new }
        ensures key { key_in_hand pass.new ≡ key_in_hand pass.old }
        ensures expects { IfSome (expectation (next turn.old)) (λ e. Expects e turn.old (known pass.old) turn.new (known pass.new) (told result)) }
    {
        let Some(expected) = turn.expected(self.alloc)? else {
            unreachable!()
        };
        let Expected {
            owner,
            creations,
            deletions,
        } = expected;
        if creations == 0 {
            desk.expect_deletions(self.rt, pass, &owner, deletions)?;
        } else {
            desk.expect_creations(self.rt, pass, &owner, creations)?;
        }
        turn.expect();
        Ok(Progress::Went)
    }

    /// Notes the answer to the command that is issued next. Where there is no memory for it, it is noted as lost, as soon as there is
    /// memory for that: so no command is issued twice. Returns whether it was noted: not where all is to stop.
    fn note(&self, turn: &mut Turn, answer: CommandAnswer) -> bool
        requires { is_some (command_issued (next turn.old)) ≡ true }
        ensures noted { result ≡ true → IfSome (command_issued (next turn.old)) (λ x. Notes x answer turn.old turn.new) }
        ensures not_noted { result ≡ false → turn.new ≡ turn.old }
    {
        if turn.answer(answer).is_ok() {
            return true;
        }
        for _ in self.rt.forever() {
            if turn.answer(CommandAnswer::Lost).is_ok() {
                return true;
            }
            if self.signals.stop.rest(self.rt, PAUSE_MILLISECONDS) {
                return false;
            }
        }
        unreachable!()
    }

    /// Returns what a worker learns of the request of its command, and notes for how long the server asks to be left alone. One that cannot
    /// be told over HTTP is as good as refused.
    fn ask(&mut self, request: &Request, patience: &mut u32) -> Learnt
        ensures asks { AsksOnce (Hears A.answers) (heard self.old.api patience.old) (request_of request.now) result (heard self.new.api patience.new) }
        ensures listers { self.new.listers ≡ self.old.listers }
    {
        if !can_be_told(request) {
            return Learnt::Known(CommandAnswer::Refused { code: BAD_REQUEST });
        }
        let answer = self.api.call(self.alloc, request);
        note(patience, &answer);
        learnt_of(answer)
    }

    /// Notes what was learnt of the command that is issued next, unless it is to be issued again.
    fn heed(&self, turn: &mut Turn, learnt: Learnt) -> Progress
        requires { is_some (command_issued (next turn.old)) ≡ true }
        ensures { IfSome (command_issued (next turn.old)) (λ x. Heeds x learnt turn.old turn.new result) }
    {
        match learnt {
            Learnt::Known(answer) => {
                if self.note(turn, answer) {
                    Progress::Went
                } else {
                    Progress::CutShort
                }
            }
            Learnt::Again => Progress::Again,
        }
    }

    /// Issues the next command of the plan. One that was not sent is to be issued again.
    fn issue(&mut self, turn: &mut Turn, patience: &mut u32) -> Result<Progress, AllocError>
        requires { is_some (command_issued (next turn.old)) ≡ true }
        ensures issues { IfSome (command_issued (next turn.old)) (λ x. Issues (Hears A.answers) x turn.old (heard self.old.api patience.old)
            turn.new (heard self.new.api patience.new) (told result)) }
        ensures listers { self.new.listers ≡ self.old.listers }
    {
        let Some(request) = turn.request(self.alloc)? else {
            unreachable!()
        };
        let learnt = self.ask(&request, patience);
        drop(request);
        Ok(self.heed(turn, learnt))
    }

    /// Takes the next step of a turn, but its end, and notes for how many milliseconds the server asks to be left alone, at the longest. No look is
    /// older than what was handled.
    pub fn step(
        &mut self,
        desk: &ControlDesk,
        pass: &mut WorkPass,
        turn: &mut Turn,
        handled: &PerKind<u64>,
        patience: &mut u32,
    ) -> Result<Progress, AllocError>
        requires pass { IsPassAt desk.now pass.old }
        ensures pass { IsPassAt desk.now pass.new }
        ensures key { key_in_hand pass.new ≡ key_in_hand pass.old }
        ensures steps { Steps L.shows A.answers handled.now (in_turn turn.old self.old.listers (heard self.old.api patience.old) (known pass.old))
            (in_turn turn.new self.new.listers (heard self.new.api patience.new) (known pass.new)) (told result) }
    {
        match turn.next() {
            NextStep::Look(kind) => self.look(turn, kind, handled),
            NextStep::AskSatisfied => self.ask_satisfied(desk, pass, turn),
            NextStep::Read(key) => {
                let key = key.try_copy()?;
                self.read_live(turn, &key, patience)
            }
            NextStep::Expect => self.expect(desk, pass, turn),
            NextStep::Issue(_) => self.issue(turn, patience),
            NextStep::Finish => Ok(Progress::AtEnd),
        }
    }
}

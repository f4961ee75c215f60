//! A worker's turn.
use crate::answers::{CommandAnswer, copies_of_answers};
use crate::expected::Expected;
use crate::next_steps::{NextStep, next_command};
use crate::observing::{expected_of, taken_back_of, undone};
use crate::planning::{copies_of_reads, stage_of};
use crate::requesting::request_of;
use crate::sets::owner_of;
use crate::sightings::{Sighting, next_sighting};
use crate::sights::{Sight, copies};
use crate::stages::Stage;
use meta::Object;
use object_keys::WorkKey;
use reconcile_types::Read;
use request_parts::Request;
use std::alloc::{AllocError, Global};
use std::marker::Model;
use std::sync::Arc;
use work_board::{Observation, Owner};

/// A worker's turn: the key in its hands, what it has seen and read live, and what it has issued of its plan. It is seen as the
/// turn of the definitions. The plan is made once, as soon as the last sight or live read is in.
pub struct Turn {
    work_key: WorkKey,
    sights: Vec<Sight>,
    reads: Vec<Read>,
    stage: Stage,
    has_expected: bool,
    answers: Vec<Arc<CommandAnswer, Global>>,
    is_accepted: bool,
    alloc: Global,
}

impl Drop for Turn {
    // Called where one is dropped; a derived drop is proved anew at each such place.
    fn drop(self) {
        let Turn {
            work_key: _work_key,
            sights: _sights,
            reads: _reads,
            stage: _stage,
            has_expected: _has_expected,
            answers: _answers,
            is_accepted: _is_accepted,
            alloc: _alloc,
        } = self;
    }
}

impl Model for Turn {
    ghost use Rattle.std.specs.Prelude.{map};
    ghost use Rattle.spec_sim.specs.ControlPlaneCodes.{coded_turn};
    ghost use Rattle.spec_sim.specs.Turns as turns;
    ghost use Rattle.reconcile_types.specs.Hands.{reads_of};
    ghost use Rattle.object_keys.specs.WorkKeys.{work_key_of};
    ghost use Rattle.reconcile_turn.specs.Answers.{answers_of};
    ghost use Rattle.reconcile_turn.specs.Seen.{sight_of};
    ghost use Rattle.reconcile_turn.specs.Stages.{IsTurn, turn_of, issued, phase_of, commands_in};

    ghost Value = { turns.Turn };

    ghost coded = { coded_turn };

    ghost view = { λ t. record {
      work_key = work_key_of t.work_key;
      sights = map sight_of t.sights.items;
      reads = reads_of t.reads.items;
      has_expected = t.has_expected;
      issues = issued (commands_in (phase_of t.stage)) (answers_of t.answers.items);
    } };

    ghost invariant = { λ t. IsTurn (phase_of t.stage) (turn_of (work_key_of t.work_key) (map sight_of t.sights.items) (reads_of t.reads.items))
        (answers_of t.answers.items) t.is_accepted };
}

impl Turn {
    ghost use Rattle.std.specs.Prelude.{◌≡◌, true, IfOk, OnOk, OnErr, is_some, map, option_map};
    ghost use Rattle.work_board.specs.Seen.{owner_of, observation_of};
    ghost use Rattle.spec_sim.specs.Managers.{requested};
    ghost use Rattle.spec_sim.specs.NextSteps.{next, finish};
    ghost use Rattle.spec_sim.specs.Turns.{begun, with_sight, with_expected, owner, taken_back, all_accepted};
    ghost use Rattle.request_parts.specs.Requests.{request_of};
    ghost use Rattle.object_keys.specs.WorkKeys.{work_key_of};
    ghost use Rattle.reconcile_turn.specs.Seen.{sight_of, answer_of, expected_of, IsNext, step_of, key_read, expectation, command_issued, found_under, answered_to};

    /// Returns the turn of a key that was taken: nothing is seen. It takes no memory.
    pub fn begin(alloc: Global, key: WorkKey) -> Turn
        ensures { result ≡ begun (work_key_of key) }
    {
        Turn {
            work_key: key,
            sights: Vec::new(alloc),
            reads: Vec::new(alloc),
            stage: Stage::Seeing,
            has_expected: false,
            answers: Vec::new(alloc),
            is_accepted: true,
            alloc,
        }
    }

    /// Returns the key in the worker's hands. It takes no memory.
    pub fn key(&self) -> &WorkKey
        ensures { work_key_of result.now ≡ self.now.work_key }
    {
        &self.work_key
    }

    /// Returns what comes next. It takes no memory.
    pub fn next(&self) -> NextStep<'_>
        ensures { IsNext result self.now }
    {
        match &self.stage {
            Stage::Seeing => match next_sighting(self.work_key.controller, self.sights.len()) {
                Some(Sighting::OfKind(kind)) => NextStep::Look(kind),
                Some(Sighting::OfExpectations) => NextStep::AskSatisfied,
                None => NextStep::Finish,
            },
            Stage::Reading(key) => NextStep::Read(key),
            Stage::Planned(plan, expects_pods) => {
                if *expects_pods && !self.has_expected {
                    return NextStep::Expect;
                }
                next_command(plan, self.answers.len(), self.is_accepted)
            }
        }
    }

    /// Adds what was seen, which is what comes next. Once all is in, the plan is made. The error is running out of memory, and
    /// then nothing has changed.
    pub fn see(&mut self, sight: Sight) -> Result<(), AllocError>
        requires { next self.old ≡ step_of sight }
        ensures ok { OnOk result (self.new ≡ with_sight (sight_of sight) self.old) }
        ensures err { OnErr result (self.new ≡ self.old) }
    {
        self.sights.push(sight)?;
        let stage = stage_of(
            self.alloc,
            &self.work_key,
            self.sights.as_slice(),
            self.reads.as_slice(),
        );
        match stage {
            Ok(stage) => {
                self.stage = stage;
                Ok(())
            }
            Err(error) => {
                self.sights.pop();
                Err(error)
            }
        }
    }

    /// Adds what was found under the key that is read live next. Once all is in, the plan is made. The error is running out of
    /// memory, and then nothing has changed.
    pub fn add_read(&mut self, found: Option<Object>) -> Result<(), AllocError>
        requires { is_some (key_read (next self.old)) ≡ true }
        ensures ok { OnOk result (self.new ≡ found_under (key_read (next self.old)) (option_map (λ o. o.value) found) self.old) }
        ensures err { OnErr result (self.new ≡ self.old) }
    {
        let Stage::Reading(key) = &self.stage else {
            return Ok(());
        };
        let key = key.try_copy()?;
        self.reads.push(Read { key, found })?;
        let stage = stage_of(
            self.alloc,
            &self.work_key,
            self.sights.as_slice(),
            self.reads.as_slice(),
        );
        match stage {
            Ok(stage) => {
                self.stage = stage;
                Ok(())
            }
            Err(error) => {
                self.reads.pop();
                Err(error)
            }
        }
    }

    /// Notes that what the plan makes of pods is expected. It takes no memory.
    pub fn expect(&mut self)
        ensures { self.new ≡ with_expected self.old }
    {
        self.has_expected = true;
    }

    /// Adds the answer to the command that is issued next. The error is running out of memory, and then nothing has changed.
    pub fn answer(&mut self, answer: CommandAnswer) -> Result<(), AllocError>
        requires { is_some (command_issued (next self.old)) ≡ true }
        ensures ok { OnOk result (self.new ≡ answered_to (command_issued (next self.old)) (answer_of answer) self.old) }
        ensures err { OnErr result (self.new ≡ self.old) }
    {
        let is_accepted = answer.is_accepted();
        let shared = Arc::new(self.alloc, answer)?;
        self.answers.push(shared)?;
        self.is_accepted = is_accepted;
        Ok(())
    }

    /// Returns the ReplicaSet of the turn, if it was there when it was looked at. The error is running out of memory.
    pub fn owner(&self, alloc: Global) -> Result<Option<Owner>, AllocError>
        ensures { IfOk result (λ o. option_map owner_of o ≡ owner self.now) }
    {
        owner_of(alloc, &self.work_key, self.sights.as_slice())
    }

    /// Returns what is expected of pods, where that comes next. The error is running out of memory.
    pub fn expected(&self, alloc: Global) -> Result<Option<Expected>, AllocError>
        ensures { IfOk result (λ e. option_map expected_of e ≡ expectation (next self.now)) }
    {
        let Stage::Planned(plan, expects_pods) = &self.stage else {
            return Ok(None);
        };
        if !*expects_pods || self.has_expected {
            return Ok(None);
        }
        let Some(owner) = self.owner(alloc)? else {
            return Ok(None);
        };
        let commands = undone(alloc, plan.commands.as_slice(), &[])?;
        Ok(Some(expected_of(alloc, owner, commands.as_slice())?))
    }

    /// Returns what is expected of pods no longer, as what was refused or not issued will not come. The error is running out
    /// of memory.
    pub fn taken_back(&self, alloc: Global) -> Result<Vec<Observation>, AllocError>
        requires { next self.now ≡ finish }
        ensures { IfOk result (λ v. map observation_of v.items ≡ taken_back self.now) }
    {
        let Stage::Planned(plan, _) = &self.stage else {
            return Ok(Vec::new(alloc));
        };
        let Some(owner) = self.owner(alloc)? else {
            return Ok(Vec::new(alloc));
        };
        let commands = undone(alloc, plan.commands.as_slice(), self.answers.as_slice())?;
        taken_back_of(alloc, &owner, commands.as_slice())
    }

    /// Returns whether all commands that were issued were accepted. It takes no memory.
    pub fn is_accepted(&self) -> bool
        ensures { result ≡ all_accepted self.now.issues }
    {
        self.is_accepted
    }

    /// Returns what the command that is issued next asks of the server, where one is. The error is running out of memory.
    pub fn request(&self, alloc: Global) -> Result<Option<Request>, AllocError>
        ensures { IfOk result (λ q. option_map request_of q ≡ option_map (requested self.now) (command_issued (next self.now))) }
    {
        match self.next() {
            NextStep::Issue(command) => {
                let request = request_of(alloc, command, self.answers.as_slice())?;
                Ok(Some(request))
            }
            _ => Ok(None),
        }
    }

    /// Returns a copy of the turn, which shares what was looked at, the plan and the answers. The error is running out of
    /// memory.
    pub fn try_copy(&self) -> Result<Turn, AllocError>
        ensures { IfOk result (λ t. t ≡ self.now) }
    {
        Ok(Turn {
            work_key: self.work_key.try_copy()?,
            sights: copies(self.alloc, self.sights.as_slice())?,
            reads: copies_of_reads(self.alloc, self.reads.as_slice())?,
            stage: self.stage.try_copy()?,
            has_expected: self.has_expected,
            answers: copies_of_answers(self.alloc, self.answers.as_slice())?,
            is_accepted: self.is_accepted,
            alloc: self.alloc,
        })
    }
}

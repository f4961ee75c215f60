//! Commands that workers issue.
ghost use Rattle.std.specs.Prelude.{◌≡◌, IfOk, OnOk, OnErr, IfSome, Some, option_map};
ghost use Rattle.std.specs.Arc.{arc_value};
ghost use Rattle.spec_laws.specs.AnswerLaws.{IsOfObject};
ghost use Rattle.sim_cluster.specs.Requested.{IsWriteOf, written};
ghost use Rattle.spec_api.specs.Reached.{CanBeRead};
ghost use Rattle.spec_api.specs.Verbs as verbs;
ghost use Rattle.sim_manager.specs.Issuing.{coming, coming_of};
ghost use Rattle.sim_manager.specs.Reached.{asked_by, write_reaching};
ghost use Rattle.sim_worker_slots.specs.Seen.{issued_of};
ghost use Rattle.meta.specs.Writes.{write_of};
ghost use Rattle.spec_sim.specs.Managers as managers;
ghost use Rattle.spec_sim.specs.Managers.{learnt, reaching};
ghost use Rattle.spec_sim.specs.NextSteps.{next};
ghost use Rattle.request_parts.specs.Requests.{request_of};
ghost use Rattle.line_session.specs.SessionStates.{accepted};
ghost use Rattle.sim_steps.specs.Actions.{delivery_of};
ghost use Rattle.reconcile_turn.specs.Seen.{answer_of, command_issued};

use crate::manager::Manager;
use crate::outcomes::WorkOutcome;
use crate::told_outcomes::ToldOutcome;
use meta::Write;
use object_keys::Fault;
use reconcile_turn::{CommandAnswer, NextStep, Turn};
use request_parts::Request;
use sim_cluster::Cluster;
use sim_steps::Delivery;
use sim_worker_slots::Issued;
use sim_worker_slots::answering::{acceptance, answered_turn};
use sim_worker_slots::issued::recorded;
use std::alloc::{AllocError, Global};
use std::sync::Arc;

/// What a worker learns of its command, and what the server is to write.
struct Answered {
    answer: CommandAnswer,
    write: Option<Write>,
}

impl Drop for Answered {
    // Called where one is dropped; a derived drop is proved anew at each such place.
    fn drop(self) {
        let Answered {
            answer: _answer,
            write: _write,
        } = self;
    }
}

impl Answered {
    /// Gives up what is learnt, and what is to be written.
    fn into_parts(self) -> (CommandAnswer, Option<Write>)
        ensures { result ≡ (self.answer, self.write) }
    {
        let Answered { answer, write } = self;
        (answer, write)
    }
}

/// Returns what the server answers to a request. The error is running out of memory.
#[tactic(auto, using(crate::proofs::Served::acceptance_of, crate::proofs::Served::write_served))]
fn ask(alloc: Global, cluster: &Cluster, request: Request) -> Result<Answered, AllocError>
    requires readable { CanBeRead (request_of request) }
    requires object { IsOfObject (request_of request) }
    ensures answer { IfOk result (λ a. answer_of a.answer ≡ managers.answer_of (accepted cluster.now.session (request_of request))) }
    ensures write { IfOk result (λ a. option_map write_of a.write ≡ verbs.write_of (accepted cluster.now.session (request_of request))) }
{
    match cluster.answer_request(alloc, request) {
        Ok((reply, write)) => Ok(Answered {
            answer: acceptance(reply),
            write,
        }),
        Err(Fault::NoMemory) => Err(AllocError),
        Err(fault) => Ok(Answered {
            answer: CommandAnswer::Refused {
                code: reply::code(&fault),
            },
            write: None,
        }),
    }
}

/// Returns what comes of a request that is delivered, or whose answer is lost, or that is dropped. The error is running out of memory.
fn deliver(
    alloc: Global,
    cluster: &Cluster,
    request: Request,
    delivery: Delivery,
) -> Result<Answered, AllocError>
    requires readable { IfSome (reaching (delivery_of delivery) (request_of request)) CanBeRead }
    requires object { IsOfObject (request_of request) }
    ensures answer { IfOk result (λ a. answer_of a.answer ≡ learnt (delivery_of delivery) (accepted cluster.now.session (request_of request))) }
    ensures write { IfOk result (λ a. option_map write_of a.write ≡ write_reaching cluster.now.session (reaching (delivery_of delivery) (request_of request))) }
{
    match delivery {
        Delivery::Delivered => ask(alloc, cluster, request),
        Delivery::AnswerLost => {
            let (_, write) = ask(alloc, cluster, request)?.into_parts();
            Ok(Answered {
                answer: CommandAnswer::Lost,
                write,
            })
        }
        Delivery::Dropped => {
            drop(request);
            Ok(Answered {
                answer: CommandAnswer::Lost,
                write: None,
            })
        }
    }
}

/// Makes a write, if there is one. The error is running out of memory, and then nothing has changed.
fn write(cluster: &mut Cluster, write: Option<Write>) -> Result<(), AllocError>
    requires { IfSome (option_map write_of write) (λ v. IsWriteOf cluster.old.session (Some v)) }
    ensures ok { OnOk result (cluster.new ≡ written (option_map write_of write) cluster.old) }
    ensures err { OnErr result (cluster.new ≡ cluster.old) }
{
    match write {
        Some(write) => cluster.take_write(Some(write)),
        None => Ok(()),
    }
}

/// What comes of a command that is issued: what is told of it, the turn after it, what is recorded of it, and what the server is to
/// write.
#[derive(Drop)]
pub(crate) struct Issuing {
    pub(crate) told: ToldOutcome,
    pub(crate) turn: Turn,
    pub(crate) issued: Arc<Issued, Global>,
    pub(crate) write: Option<Write>,
}

/// Returns what comes of the command that a turn issues next, if it issues one. Nothing has changed yet. The error is running out of memory.
fn next_issue(
    alloc: Global,
    cluster: &Cluster,
    worker: u64,
    turn: &Turn,
    delivery: Delivery,
) -> Result<Option<Issuing>, AllocError>
    requires readable { IfSome (asked_by (delivery_of delivery) turn.now) CanBeRead }
    ensures { IfOk result (λ o. option_map coming_of o ≡ option_map (coming cluster.now.session worker turn.now (delivery_of delivery)) (command_issued (next turn.now))) }
{
    let NextStep::Issue(command) = turn.next() else {
        return Ok(None);
    };
    let Some(request) = turn.request(alloc)? else {
        return Ok(None);
    };
    let answered = deliver(alloc, cluster, request, delivery)?;
    let issued = recorded(alloc, turn, command, &answered.answer)?;
    let told = ToldOutcome::of(
        alloc,
        WorkOutcome::Issued {
            worker,
            issued: Arc::try_clone(&issued)?,
        },
    )?;
    let (answer, write) = answered.into_parts();
    Ok(Some(Issuing {
        told,
        turn: answered_turn(turn, answer)?,
        issued,
        write,
    }))
}

impl Manager {
    ghost use Rattle.std.specs.Prelude.{◌≡◌, ◌<◌, ◌++◌, ◌∷◌, [], IfOk, IfSome, OnOk, OnErr, Some, length, option_map, slice_set};
    ghost use Rattle.std.specs.Arc.{arc_value};
    ghost use Rattle.sim_cluster.specs.Requested.{IsWriteOf, written};
    ghost use Rattle.meta.specs.Writes.{write_of};
    ghost use Rattle.sim_worker_slots.specs.Seen.{issued_of};
    ghost use Rattle.spec_sim.specs.Managers as managers;
    ghost use Rattle.spec_sim.specs.Managers.{act};
    ghost use Rattle.sim_manager.specs.Outcomes.{outcome_of};
    ghost use Rattle.sim_steps.specs.Actions.{delivery_of};
    ghost use Rattle.sim_manager.specs.Reached.{client_of, after_request, CanBeAsked};

    /// Makes what comes of a command of a worker's. The error is running out of memory, and then nothing has changed, at the server neither.
    fn make(
        &mut self,
        cluster: &mut Cluster,
        worker: u64,
        issuing: Issuing,
    ) -> Result<ToldOutcome, AllocError>
        requires write { IfSome (option_map write_of issuing.write) (λ v. IsWriteOf cluster.old.session (Some v)) }
        requires worker { worker < length self.old.turns }
        ensures ok { OnOk result (self.new ≡ record self.old {
          turns = slice_set self.old.turns worker (Some issuing.turn);
          issued = self.old.issued ++ issued_of (arc_value issuing.issued) ∷ [];
        }) }
        ensures told { IfOk result (λ t. outcome_of t.outcome ≡ outcome_of issuing.told.outcome) }
        ensures cluster { OnOk result (cluster.new ≡ written (option_map write_of issuing.write) cluster.old) }
        ensures err { OnErr result (self.new ≡ self.old) }
        ensures untouched { OnErr result (cluster.new ≡ cluster.old) }
    {
        self.issued.push(issuing.issued)?;
        if write(cluster, issuing.write).is_err() {
            self.issued.pop();
            return Err(AllocError);
        }
        self.turns.set(worker, Some(issuing.turn));
        Ok(issuing.told)
    }

    /// Has a worker issue the next command of its plan, where that comes next in its turn; it is delivered, or its answer is lost, or it is
    /// dropped. Returns what is told of it. The error is running out of memory, and then nothing has changed, at the server neither.
    pub fn issue(
        &mut self,
        alloc: Global,
        cluster: &mut Cluster,
        worker: u64,
        delivery: Delivery,
    ) -> Result<ToldOutcome, AllocError>
        requires asked { CanBeAsked cluster.old worker (managers.issue (delivery_of delivery)) self.old }
        ensures ok { OnOk result (self.new ≡ (act (client_of cluster.old) worker (managers.issue (delivery_of delivery)) self.old).manager) }
        ensures told { IfOk result (λ t. outcome_of t.outcome ≡ (act (client_of cluster.old) worker (managers.issue (delivery_of delivery)) self.old).outcome) }
        ensures cluster { OnOk result (cluster.new
            ≡ after_request (act (client_of cluster.old) worker (managers.issue (delivery_of delivery)) self.old).request cluster.old) }
        ensures err { OnErr result (self.new ≡ self.old) }
        ensures untouched { OnErr result (cluster.new ≡ cluster.old) }
    {
        let Some(turn) = self.turns.get(worker) else {
            return ToldOutcome::of(alloc, WorkOutcome::NoStep);
        };
        let Some(issuing) = next_issue(alloc, cluster, worker, turn, delivery)? else {
            return ToldOutcome::of(alloc, WorkOutcome::NoStep);
        };
        self.make(cluster, worker, issuing)
    }
}

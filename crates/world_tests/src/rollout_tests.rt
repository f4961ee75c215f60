//! A rollout and its collection, as one list of some thousand steps.
use line_session::JournalEntry;
use sim_steps::{Action, Config, Delivery, InitialSync, Move, PlaneStep, Step};
use spec_api::kinds::Kind;
use std::alloc::{AllocError, Global};
use world::World;

/// How often all act after a request.
const ROUNDS: usize = 20;

/// A Deployment whose pods may all be unavailable, so that it is rolled with no kubelet.
const CREATE: PlaneStep<'static> = PlaneStep::InCluster(Step::Request(
    b"POST /apis/apps/v1/namespaces/default/deployments {\"metadata\":{\"name\":\"web\"},\"spec\":{\"replicas\":3,\"selector\":{\"matchLabels\":{\"app\":\"web\"}},\"strategy\":{\"rollingUpdate\":{\"maxUnavailable\":\"100%\"},\"type\":\"RollingUpdate\"},\"template\":{\"metadata\":{\"labels\":{\"app\":\"web\"}},\"spec\":{\"containers\":[{\"name\":\"web\",\"image\":\"web:1\"}]}}}}",
));

const ROLL: PlaneStep<'static> = PlaneStep::InCluster(Step::Request(
    b"PATCH /apis/apps/v1/namespaces/default/deployments/web {\"spec\":{\"template\":{\"spec\":{\"containers\":[{\"name\":\"web\",\"image\":\"web:2\"}]}}}}",
));

const DELETE: PlaneStep<'static> = PlaneStep::InCluster(Step::Request(
    b"DELETE /apis/apps/v1/namespaces/default/deployments/web",
));

/// What a follower does in a round; what is not open changes nothing.
const MOVES: &[Move] = &[
    Move::List,
    Move::Watch,
    Move::Send(9),
    Move::DeliverAll,
    Move::Publish,
];

/// What a worker does in a round.
const ACTIONS: &[Action] = &[
    Action::Take,
    Action::Look(Kind::ConfigMap),
    Action::Look(Kind::Deployment),
    Action::Look(Kind::ReplicaSet),
    Action::AskSatisfied,
    Action::Look(Kind::Pod),
    Action::Look(Kind::ReplicaSet),
    Action::Look(Kind::Deployment),
    Action::Look(Kind::Pod),
    Action::ReadLive,
    Action::ReadLive,
    Action::Expect,
    Action::Issue(Delivery::Delivered),
    Action::Issue(Delivery::Delivered),
    Action::Issue(Delivery::Delivered),
    Action::Issue(Delivery::Delivered),
    Action::Finish,
];

/// Appends what follows a kind.
fn push_moves<'t>(steps: &mut Vec<PlaneStep<'t>>, kind: Kind) -> Result<(), AllocError> {
    for movement in MOVES {
        steps.push(PlaneStep::InCluster(Step::Moves(kind, *movement)))?;
    }
    for _ in 0..4 {
        steps.push(PlaneStep::Handle(kind))?;
    }
    Ok(())
}

/// Appends the turns of two workers, after one another.
fn push_turns<'t>(steps: &mut Vec<PlaneStep<'t>>) -> Result<(), AllocError> {
    for worker in 0_u64..2 {
        for action in ACTIONS {
            steps.push(PlaneStep::Works(worker, *action))?;
        }
    }
    Ok(())
}

/// Appends what all do in a round.
fn push_round<'t>(steps: &mut Vec<PlaneStep<'t>>) -> Result<(), AllocError> {
    push_moves(steps, Kind::ConfigMap)?;
    push_moves(steps, Kind::Pod)?;
    push_moves(steps, Kind::ReplicaSet)?;
    push_moves(steps, Kind::Deployment)?;
    push_turns(steps)?;
    steps.push(PlaneStep::Tick(2_000))?;
    Ok(())
}

/// Appends a request, and what all do after it.
fn push_phase<'t>(
    steps: &mut Vec<PlaneStep<'t>>,
    request: PlaneStep<'t>,
) -> Result<(), AllocError> {
    steps.push(request)?;
    for _ in 0..ROUNDS {
        push_round(steps)?;
    }
    Ok(())
}

/// Returns the steps of a rollout and its collection.
fn steps_of(alloc: Global) -> Result<Vec<PlaneStep<'static>>, AllocError> {
    let mut steps = Vec::new(alloc);
    push_phase(&mut steps, CREATE)?;
    push_phase(&mut steps, ROLL)?;
    push_phase(&mut steps, DELETE)?;
    Ok(steps)
}

/// Returns an opening world.
fn opened(alloc: Global) -> Result<World, AllocError> {
    World::open(
        alloc,
        Config {
            window: 64,
            workers: 2,
            initial: InitialSync::List,
        },
    )
}

/// Returns whether two journals tell of the same writes: of the same texts, or of removals, in the same order.
fn are_same(
    alloc: Global,
    these: &[JournalEntry],
    those: &[JournalEntry],
) -> Result<bool, AllocError> {
    let mut same = these.len() == those.len();
    for (this, that) in these.iter().zip(those) {
        same = is_same(alloc, this, that)? && same;
    }
    Ok(same)
}

/// Returns whether two writes put the same text, or both remove an object, of one name.
fn is_same(alloc: Global, this: &JournalEntry, that: &JournalEntry) -> Result<bool, AllocError> {
    let (JournalEntry::Write(this), JournalEntry::Write(that)) = (this, that) else {
        return Ok(false);
    };
    let same = this.key.cmp(&that.key).is_eq();
    match (&this.put, &that.put) {
        (Some(this), Some(that)) => Ok(this.to_text(alloc)? == that.to_text(alloc)? && same),
        (None, None) => Ok(same),
        _ => Ok(false),
    }
}

/// Takes steps one by one, and returns whether all were taken.
fn takes_each(alloc: Global, world: &mut World, steps: &[PlaneStep<'_>]) -> bool {
    let mut all = true;
    for step in steps {
        all = world.step(alloc, *step).is_ok() && all;
    }
    all
}

/// Returns how many objects of a kind an informer shows.
fn shown(alloc: Global, world: &World, kind: Kind) -> Result<usize, AllocError> {
    Ok(world.published(kind).list(alloc)?.len())
}

/// Returns whether all is collected, as the informers show.
fn is_collected(alloc: Global, world: &World) -> Result<bool, AllocError> {
    let pods = shown(alloc, world, Kind::Pod)?;
    let sets = shown(alloc, world, Kind::ReplicaSet)?;
    Ok(pods == 0 && sets == 0)
}

/// Takes the steps at once in one world and one by one in another, and returns how many writes there were, whether both tell of the same, and
/// whether all is collected in the end.
fn compared(
    alloc: Global,
    at_once: &mut World,
    by_one: &mut World,
    steps: &[PlaneStep<'_>],
) -> Result<(bool, bool), AllocError> {
    let taken = at_once.run(alloc, steps).is_ok() && takes_each(alloc, by_one, steps);
    let same = are_same(alloc, at_once.journal(), by_one.journal())?;
    let enough = steps.len() >= 3_000 && at_once.journal().len() >= 20;
    Ok((taken && same && enough, is_collected(alloc, at_once)?))
}

/// Returns what comes of the rollout, taken at once and one by one.
fn rolled(alloc: Global) -> Result<(bool, bool), AllocError> {
    let steps = steps_of(alloc)?;
    let mut at_once = opened(alloc)?;
    let mut by_one = opened(alloc)?;
    let rolled = compared(alloc, &mut at_once, &mut by_one, steps.as_slice());
    drop(at_once);
    drop(by_one);
    rolled
}

#[test]
fn a_rollout_at_once_is_as_step_by_step(rt: HostRuntime) {
    assert_eq!(rt; rolled(rt.alloc()), Ok((true, true)));
}

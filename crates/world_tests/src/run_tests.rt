//! Worked examples, each taken at once as one list of steps.
use line_session::JournalEntry;
use meta::StoredObject;
use reconcile_types::Command;
use sim_steps::{Action, Config, Delivery, InitialSync, Move, PlaneStep, Step};
use sim_worker_slots::Issued;
use spec_api::kinds::Kind;
use std::alloc::{AllocError, Global};
use std::sync::Arc;
use world::World;

/// What an entry of a journal says: the name and the `resourceVersion` of the object that was put, or up to where was compacted.
enum Happened {
    Put(&'static str, &'static str),
    Compacted(u64),
}

/// The sizes of a world, the steps that it takes, and what its journal and the commands issued say then.
struct Example {
    config: Config,
    steps: &'static [PlaneStep<'static>],
    happened: &'static [Happened],
    issued: &'static [&'static str],
}

/// A create of a ConfigMap.
const FIRST: PlaneStep<'static> = PlaneStep::InCluster(Step::Request(
    b"POST /api/v1/namespaces/default/configmaps {\"metadata\":{\"name\":\"a\"}}",
));

/// One of one with a letter of two bytes.
const SECOND: PlaneStep<'static> = PlaneStep::InCluster(Step::Request(
    b"POST /api/v1/namespaces/default/configmaps {\"metadata\":{\"name\":\"b\"},\"data\":{\"k\":\"\xc3\xa9\"}}",
));

/// A ConfigMap whose frame is cut within a letter comes once more, and then all is compacted.
const CUT_LETTER: Example = Example {
    config: Config {
        window: 4,
        workers: 1,
        initial: InitialSync::List,
    },
    steps: &[
        FIRST,
        PlaneStep::InCluster(Step::Moves(Kind::ConfigMap, Move::List)),
        PlaneStep::InCluster(Step::Moves(Kind::ConfigMap, Move::Publish)),
        SECOND,
        PlaneStep::InCluster(Step::Moves(Kind::ConfigMap, Move::Watch)),
        PlaneStep::InCluster(Step::Moves(Kind::ConfigMap, Move::Send(1))),
        PlaneStep::InCluster(Step::Moves(Kind::ConfigMap, Move::Deliver(43))),
        PlaneStep::InCluster(Step::Moves(Kind::ConfigMap, Move::Cut)),
        PlaneStep::InCluster(Step::Moves(Kind::ConfigMap, Move::Watch)),
        PlaneStep::InCluster(Step::Moves(Kind::ConfigMap, Move::Send(1))),
        PlaneStep::InCluster(Step::Moves(Kind::ConfigMap, Move::DeliverAll)),
        PlaneStep::InCluster(Step::Moves(Kind::ConfigMap, Move::Publish)),
        PlaneStep::InCluster(Step::Compact(3)),
    ],
    happened: &[
        Happened::Put("a", "2"),
        Happened::Put("b", "3"),
        Happened::Compacted(3),
    ],
    issued: &[],
};

/// A create of a ReplicaSet of two.
const WEB: PlaneStep<'static> = PlaneStep::InCluster(Step::Request(
    b"POST /apis/apps/v1/namespaces/default/replicasets {\"metadata\":{\"name\":\"web\"},\"spec\":{\"replicas\":2,\"selector\":{\"matchLabels\":{\"app\":\"web\"}},\"template\":{\"metadata\":{\"labels\":{\"app\":\"web\"}},\"spec\":{}}}}",
));

/// What happens where a ReplicaSet of two gets its pods, and what is issued.
const TWO_PODS: &[Happened] = &[
    Happened::Put("web", "2"),
    Happened::Put("web-bbbbf", "3"),
    Happened::Put("web-bbbbg", "4"),
    Happened::Put("web", "5"),
];

const TWO_CREATES: &[&str] = &["create", "create", "status"];

/// A ReplicaSet of two gets its pods, once all kinds were listed and published.
const AFTER_LISTS: Example = Example {
    config: Config {
        window: 16,
        workers: 2,
        initial: InitialSync::List,
    },
    steps: &[
        WEB,
        PlaneStep::InCluster(Step::Moves(Kind::ConfigMap, Move::List)),
        PlaneStep::InCluster(Step::Moves(Kind::ConfigMap, Move::Publish)),
        PlaneStep::InCluster(Step::Moves(Kind::Pod, Move::List)),
        PlaneStep::InCluster(Step::Moves(Kind::Pod, Move::Publish)),
        PlaneStep::InCluster(Step::Moves(Kind::ReplicaSet, Move::List)),
        PlaneStep::InCluster(Step::Moves(Kind::ReplicaSet, Move::Publish)),
        PlaneStep::InCluster(Step::Moves(Kind::Deployment, Move::List)),
        PlaneStep::InCluster(Step::Moves(Kind::Deployment, Move::Publish)),
        PlaneStep::Handle(Kind::ReplicaSet),
        PlaneStep::Works(0, Action::Take),
        PlaneStep::Works(0, Action::Look(Kind::ReplicaSet)),
        PlaneStep::Works(0, Action::AskSatisfied),
        PlaneStep::Works(0, Action::Look(Kind::Pod)),
        PlaneStep::Works(0, Action::Expect),
        PlaneStep::Works(0, Action::Issue(Delivery::Delivered)),
        PlaneStep::Works(0, Action::Issue(Delivery::Delivered)),
        PlaneStep::Works(0, Action::Issue(Delivery::Delivered)),
        PlaneStep::Works(0, Action::Finish),
        PlaneStep::Works(0, Action::Take),
    ],
    happened: TWO_PODS,
    issued: TWO_CREATES,
};

/// The same once all kinds were taken in as streams of initial events.
const AFTER_STREAMS: Example = Example {
    config: Config {
        window: 16,
        workers: 2,
        initial: InitialSync::Stream,
    },
    steps: &[
        WEB,
        PlaneStep::InCluster(Step::Moves(Kind::ConfigMap, Move::Stream)),
        PlaneStep::InCluster(Step::Moves(Kind::ConfigMap, Move::Send(9))),
        PlaneStep::InCluster(Step::Moves(Kind::ConfigMap, Move::DeliverAll)),
        PlaneStep::InCluster(Step::Moves(Kind::ConfigMap, Move::Publish)),
        PlaneStep::InCluster(Step::Moves(Kind::Pod, Move::Stream)),
        PlaneStep::InCluster(Step::Moves(Kind::Pod, Move::Send(9))),
        PlaneStep::InCluster(Step::Moves(Kind::Pod, Move::DeliverAll)),
        PlaneStep::InCluster(Step::Moves(Kind::Pod, Move::Publish)),
        PlaneStep::InCluster(Step::Moves(Kind::ReplicaSet, Move::Stream)),
        PlaneStep::InCluster(Step::Moves(Kind::ReplicaSet, Move::Send(9))),
        PlaneStep::InCluster(Step::Moves(Kind::ReplicaSet, Move::DeliverAll)),
        PlaneStep::InCluster(Step::Moves(Kind::ReplicaSet, Move::Publish)),
        PlaneStep::InCluster(Step::Moves(Kind::Deployment, Move::Stream)),
        PlaneStep::InCluster(Step::Moves(Kind::Deployment, Move::Send(9))),
        PlaneStep::InCluster(Step::Moves(Kind::Deployment, Move::DeliverAll)),
        PlaneStep::InCluster(Step::Moves(Kind::Deployment, Move::Publish)),
        PlaneStep::Handle(Kind::ReplicaSet),
        PlaneStep::Works(0, Action::Take),
        PlaneStep::Works(0, Action::Look(Kind::ReplicaSet)),
        PlaneStep::Works(0, Action::AskSatisfied),
        PlaneStep::Works(0, Action::Look(Kind::Pod)),
        PlaneStep::Works(0, Action::Expect),
        PlaneStep::Works(0, Action::Issue(Delivery::Delivered)),
        PlaneStep::Works(0, Action::Issue(Delivery::Delivered)),
        PlaneStep::Works(0, Action::Issue(Delivery::Delivered)),
        PlaneStep::Works(0, Action::Finish),
        PlaneStep::Works(0, Action::Take),
    ],
    happened: TWO_PODS,
    issued: TWO_CREATES,
};

/// Returns whether an object has this name and `resourceVersion`.
fn is_object(
    alloc: Global,
    stored: &StoredObject,
    name: &str,
    version: &str,
) -> Result<bool, AllocError> {
    let object = stored.open(alloc)?;
    Ok(object.name() == Some(name) && object.resource_version() == Some(version))
}

/// Returns whether an entry says this.
fn says(alloc: Global, entry: &JournalEntry, wanted: &Happened) -> Result<bool, AllocError> {
    match (entry, wanted) {
        (JournalEntry::Compaction(revision), Happened::Compacted(wanted)) => Ok(revision == wanted),
        (JournalEntry::Write(write), Happened::Put(name, version)) => match &write.put {
            Some(stored) => is_object(alloc, stored, name, version),
            None => Ok(false),
        },
        _ => Ok(false),
    }
}

/// Returns whether the entries of a journal say this, and there are no others.
fn all_say(
    alloc: Global,
    journal: &[JournalEntry],
    happened: &[Happened],
) -> Result<bool, AllocError> {
    let mut same = journal.len() == happened.len();
    for (entry, wanted) in journal.iter().zip(happened) {
        same = says(alloc, entry, wanted)? && same;
    }
    Ok(same)
}

/// Returns the word for a command.
fn word_of(command: &Command) -> &'static str {
    match command {
        Command::Create { .. } => "create",
        Command::Update { .. } => "update",
        Command::UpdateStatus { .. } => "status",
        Command::Delete { .. } => "delete",
    }
}

/// Returns whether these commands were issued, and no others.
fn are_issued(issued: &[Arc<Issued, Global>], wanted: &[&str]) -> bool {
    let mut same = issued.len() == wanted.len();
    for (issued, word) in issued.iter().zip(wanted) {
        same = same && word_of(&issued.command) == *word;
    }
    same
}

/// Returns whether what has happened in a world, and what was issued, is what an example says.
fn is_as_said(alloc: Global, world: &World, example: &Example) -> Result<bool, AllocError> {
    let are_issued = are_issued(world.issued(), example.issued);
    Ok(all_say(alloc, world.journal(), example.happened)? && are_issued)
}

/// Takes these steps at once, and returns whether all were taken.
fn takes_all(alloc: Global, world: &mut World, steps: &[PlaneStep<'_>]) -> bool {
    world.run(alloc, steps).is_ok()
}

/// Returns whether a world takes the steps of an example at once, and is then as it says.
fn becomes_so(alloc: Global, world: &mut World, example: &Example) -> Result<bool, AllocError> {
    Ok(takes_all(alloc, world, example.steps) && is_as_said(alloc, world, example)?)
}

/// Returns an opening world of these sizes.
fn opened(alloc: Global, config: Config) -> Result<World, AllocError> {
    World::open(alloc, config)
}

/// Returns whether a new world goes as an example says.
fn goes_so(alloc: Global, example: &Example) -> Result<bool, AllocError> {
    let mut world = opened(alloc, example.config)?;
    let goes_so = becomes_so(alloc, &mut world, example);
    drop(world);
    goes_so
}

#[test]
fn a_cut_letter_leaves_the_journal(rt: HostRuntime) {
    assert_eq!(rt; goes_so(rt.alloc(), &CUT_LETTER), Ok(true));
}

#[test]
fn two_pods_are_created(rt: HostRuntime) {
    assert_eq!(rt; goes_so(rt.alloc(), &AFTER_LISTS), Ok(true));
}

#[test]
fn two_pods_are_created_after_streams(rt: HostRuntime) {
    assert_eq!(rt; goes_so(rt.alloc(), &AFTER_STREAMS), Ok(true));
}

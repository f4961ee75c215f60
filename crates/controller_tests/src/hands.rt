//! What workers have at hand.
use crate::fixtures::{listing, object};
use crate::{collector_tests, deployment_tests, replica_set_tests};
use indexer::Indexed;
use object_keys::{Key, PerKind};
use reconcile_types::{Hand, Read};
use reflector::Delta;
use spec_api::kinds::Kind;
use spec_client_go::controller::Controller;
use std::alloc::{AllocError, Global};
use test_fixtures::key;

/// Applies a delta to a copy, if it is there.
fn apply(seen: &mut Option<Indexed>, delta: &Delta) -> Result<(), AllocError> {
    match seen {
        Some(seen) => seen.apply(delta),
        None => Ok(()),
    }
}

/// Has a look show these objects, and no others, as a list at revision 9 gives them.
pub(crate) fn show(
    alloc: Global,
    seen: &mut Option<Indexed>,
    kind: Kind,
    texts: &[&str],
) -> Result<(), AllocError> {
    let list = listing(alloc, kind, 9, texts)?;
    apply(seen, &list)
}

/// Returns the turn of a key that looks at no objects, where all that was expected has been seen and nothing was read live.
fn hand(alloc: Global, key: Key) -> Hand<Indexed> {
    Hand {
        key,
        looks: PerKind::made(|_| Some(Indexed::new(alloc))),
        is_satisfied: true,
        reads: Vec::new(alloc),
    }
}

/// Returns what a turn says in the test of its controller.
fn told(
    alloc: Global,
    controller: Controller,
    hand: &mut Hand<Indexed>,
) -> Result<String, AllocError> {
    match controller {
        Controller::ReplicaSet => replica_set_tests::told_of(alloc, hand),
        Controller::Deployment => deployment_tests::told_of(alloc, hand),
        Controller::Collector => collector_tests::told_of(alloc, hand),
    }
}

/// Returns what the turn of a name says in the test of its controller.
pub(crate) fn answers(
    alloc: Global,
    controller: Controller,
    kind: Kind,
    name: &str,
) -> Result<String, AllocError> {
    let mut hand = hand(alloc, key(alloc, kind, name)?);
    told(alloc, controller, &mut hand)
}

/// Adds a live read of a name, which finds the object that a text says.
pub(crate) fn read(
    alloc: Global,
    reads: &mut Vec<Read>,
    kind: Kind,
    name: &str,
    text: &str,
) -> Result<(), AllocError> {
    let key = key(alloc, kind, name)?;
    let found = Some(object(alloc, kind, text)?);
    reads.push(Read { key, found })?;
    Ok(())
}

/// Adds a live read of a name, which finds nothing.
pub(crate) fn read_none(
    alloc: Global,
    reads: &mut Vec<Read>,
    kind: Kind,
    name: &str,
) -> Result<(), AllocError> {
    let key = key(alloc, kind, name)?;
    reads.push(Read { key, found: None })?;
    Ok(())
}

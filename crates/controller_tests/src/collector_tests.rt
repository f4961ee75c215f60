//! A turn of the collector.
use crate::assertions::assert_text;
use crate::hands::{answers, read, read_none, show};
use crate::written::{tell_commands, tell_keys};
use collector::{asks, plan};
use indexer::Indexed;
use reconcile_types::Hand;
use spec_api::kinds::Kind;
use spec_client_go::controller::Controller;
use std::alloc::{AllocError, Global};

/// A pod of the ConfigMap `a`.
const OF_A: &str =
    r#"{"metadata":{"name":"p","namespace":"default","ownerReferences":[{"apiVersion":"v1","kind":"ConfigMap","name":"a","uid":"u-a"}],"resourceVersion":"3","uid":"u-p"}}"#;

/// Adds to a text what a turn asks for.
fn ask(alloc: Global, text: &mut String, hand: &Hand<Indexed>) -> Result<(), AllocError> {
    tell_keys(text, asks(alloc, hand)?.as_slice())
}

/// Adds to a text what a turn that looks at the pod asks for at first, what it asks for once the pod was read, and what it commands as its
/// owner is not there.
fn tell(alloc: Global, text: &mut String, hand: &mut Hand<Indexed>) -> Result<(), AllocError> {
    show(alloc, &mut hand.looks.pods, Kind::Pod, &[OF_A])?;
    ask(alloc, text, hand)?;
    read(alloc, &mut hand.reads, Kind::Pod, "p", OF_A)?;
    ask(alloc, text, hand)?;
    read_none(alloc, &mut hand.reads, Kind::ConfigMap, "a")?;
    tell_commands(text, plan(alloc, hand)?.commands.as_slice())
}

/// Returns what the turn of the pod asks for and commands.
pub(crate) fn told_of(alloc: Global, hand: &mut Hand<Indexed>) -> Result<String, AllocError> {
    let mut text = String::new(alloc);
    tell(alloc, &mut text, hand)?;
    Ok(text)
}

#[test]
fn what_has_no_owner_goes(rt: HostRuntime) {
    let text = answers(rt.alloc(), Controller::Collector, Kind::Pod, "p");
    assert_text(&rt, &text, "Pod p,ConfigMap a,delete p,u-p 3,");
}

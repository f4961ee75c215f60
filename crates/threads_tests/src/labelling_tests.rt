//! A set that is labelled while an update of it is planned.
ghost use Rattle.std.specs.Prelude.{◌≡◌, All};
ghost use Rattle.desk.specs.Desks.{IsNewAt};

use crate::clients::Client;
use crate::counting::declare_and_count;
use crate::environments::Environment;
use crate::fake_clocks::FakeClock;
use crate::halting::Halting;
use crate::labelling::Labelling;
use crate::running::run_beside;
use crate::scenes::Scene;
use desk::StorePass;
use manager::Signals;
use spec_api::kinds::Kind;
use spec_client_go::controller::Controller;
use std::alloc::{AllocError, Global};
use std::sync::Wait;
use std::thread::Threads;
use std::time::Clock;

/// How many passes there are: for four followers and a client, of each run, for one worker of the first run and for two of the second.
const PASSES: usize = 13;

/// After how many turns the threads would stop: more than they take.
const MOST_TURNS: u64 = 1_000_000;

/// Declares that the Deployment has two pods, and returns the name of its set.
fn changed<R: Wait + Clock>(
    alloc: Global,
    client: &mut Client<'_, R>,
) -> Result<Option<String>, AllocError> {
    if !client.patch(Kind::Deployment, "web", "{\"spec\":{\"replicas\":2}}") {
        return Ok(None);
    }
    let Some(list) = client.list(Kind::ReplicaSet) else {
        return Ok(None);
    };
    match list
        .pointer("/items/0/metadata/name")
        .and_then(|it| it.as_str())
    {
        Some(name) => Ok(Some(String::from_str(alloc, name)?)),
        None => Ok(None),
    }
}

/// Has the controllers make the set of a Deployment of one pod, and changes the Deployment. Returns a client, and the name of the set, if it
/// was made.
fn prepared<'a, R: Threads + Wait + Clock + Sync>(
    before: &Scene<'_, R>,
    scene: &Scene<'a, FakeClock<R>>,
    passes: &mut Vec<StorePass>,
) -> Result<Option<(Client<'a, FakeClock<R>>, String)>, AllocError>
    requires before { All (IsNewAt before.now.environment.now.desk) passes.old.items }
    requires scene { scene.now.environment.now ≡ before.now.environment.now }
    ensures { All (IsNewAt scene.now.environment.now.desk) passes.new.items }
{
    let (declared, made) = (Kind::Deployment, Kind::ReplicaSet);
    if !declare_and_count(before, passes, declared, 1, 1, made, 1)? {
        return Ok(None);
    }
    let mut client = Client::new(scene, passes)?;
    let set = changed(scene.alloc, &mut client)?;
    Ok(set.map(|set| (client, set)))
}

#[test]
fn an_update_of_what_has_changed_is_planned_again_after_its_delay(
    rt: HostRuntime,
) -> Result<(), AllocError> {
    let (clock, signals) = (FakeClock::new(rt), Signals::new(Some(MOST_TURNS)));
    let (environment, mut passes) = Environment::open(rt.alloc(), PASSES)?;
    let before = environment.scene(&rt, rt.alloc());
    let scene = environment.scene_with(&clock, rt.alloc(), &signals);
    let gate = Halting::new(&scene, Controller::Deployment, "web")?;
    let Some((client, set)) = prepared(&before, &scene, &mut passes)? else {
        assert!(rt; false, "no set was made");
        return Ok(());
    };
    environment.pause_watches();
    let mut labelling = Labelling {
        client,
        gate: &gate,
        environment: scene.environment,
        signals: scene.signals,
        set,
        replicas: 2,
    };
    let has_come = run_beside(&scene, &mut passes, 2, &gate, &mut labelling)?;
    assert_eq!(rt;
        (environment.update_conflicts() >= 1, has_come),
        (true, true)
    );
    Ok(())
}

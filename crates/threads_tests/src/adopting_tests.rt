//! A ConfigMap that is given an owner while its delete is planned.
ghost use Rattle.std.specs.Prelude.{All};
ghost use Rattle.desk.specs.Desks.{IsNewAt};

use crate::adopting::{Adopting, ITEM};
use crate::clients::Client;
use crate::environments::Environment;
use crate::halting::Halting;
use crate::objects::{owned, owner};
use crate::running::run_beside;
use crate::scenes::Scene;
use desk::StorePass;
use spec_api::kinds::Kind;
use spec_client_go::controller::Controller;
use std::alloc::{AllocError, Global};
use std::sync::Wait;
use std::time::Clock;

/// The uid of an owner that is not there: the server makes none like it.
const GONE: &str = "gone";

/// How many passes there are: for four followers, a worker and a client.
const PASSES: usize = 6;

/// Declares a ConfigMap `item` whose owner is not there, and one `alive`, whose uid is returned.
fn declared<R: Wait + Clock>(
    alloc: Global,
    client: &mut Client<'_, R>,
) -> Result<Option<String>, AllocError> {
    let item = owned(alloc, ITEM, owner(alloc, "gone", GONE)?.as_str())?;
    if client.create(Kind::ConfigMap, item.as_str()).is_none() {
        return Ok(None);
    }
    let alive = owned(alloc, "alive", "")?;
    let Some(alive) = client.create(Kind::ConfigMap, alive.as_str()) else {
        return Ok(None);
    };
    match alive.pointer("/metadata/uid").and_then(|it| it.as_str()) {
        Some(uid) => Ok(Some(String::from_str(alloc, uid)?)),
        None => Ok(None),
    }
}

/// Returns the text of the item with both owners.
fn adopted(alloc: Global, uid: &str) -> Result<String, AllocError> {
    let mut owners = owner(alloc, "gone", GONE)?;
    owners.push_str(",")?;
    owners.push_str(owner(alloc, "alive", uid)?.as_str())?;
    owned(alloc, ITEM, owners.as_str())
}

/// Declares the item and its owner. Returns a client, and the uid of the owner, if both were declared.
fn prepared<'a, R: Wait + Clock>(
    scene: &Scene<'a, R>,
    passes: &mut Vec<StorePass>,
) -> Result<Option<(Client<'a, R>, String)>, AllocError>
    requires { All (IsNewAt scene.now.environment.now.desk) passes.old.items }
    ensures { All (IsNewAt scene.now.environment.now.desk) passes.new.items }
{
    let mut client = Client::new(scene, passes)?;
    let uid = declared(scene.alloc, &mut client)?;
    Ok(uid.map(|uid| (client, uid)))
}

#[test]
fn what_is_given_a_live_owner_meanwhile_stays(rt: HostRuntime) -> Result<(), AllocError> {
    let (environment, mut passes) = Environment::open(rt.alloc(), PASSES)?;
    let scene = environment.scene(&rt, rt.alloc());
    let gate = Halting::new(&scene, Controller::Collector, ITEM)?;
    let Some((client, uid)) = prepared(&scene, &mut passes)? else {
        assert!(rt; false, "nothing was declared");
        return Ok(());
    };
    let mut adopting = Adopting {
        client,
        gate: &gate,
        owners: adopted(rt.alloc(), uid.as_str())?,
        left: uid,
    };
    let has_come = run_beside(&scene, &mut passes, 1, &gate, &mut adopting)?;
    assert_eq!(rt; (environment.delete_conflicts(), has_come), (1, true));
    Ok(())
}

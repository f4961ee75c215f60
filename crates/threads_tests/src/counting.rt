//! A scenario in which objects are counted.
ghost use Rattle.std.specs.Prelude.{All};
ghost use Rattle.desk.specs.Desks.{IsNewAt};

use crate::clients::Client;
use crate::objects::with_pods;
use crate::polling::wait_until;
use crate::running::run_beside;
use crate::scenarios::Scenario;
use crate::scenes::Scene;
use desk::StorePass;
use manager::Open;
use serde_json::Value;
use spec_api::kinds::Kind;
use std::alloc::{AllocError, Global};
use std::sync::Wait;
use std::thread::Threads;
use std::time::Clock;

/// A client waits until so many objects of a kind are there.
#[derive(Drop)]
pub struct Counting<'a, R> {
    pub client: Client<'a, R>,
    pub kind: Kind,
    pub wanted: usize,
}

/// Returns how many objects are listed.
fn count(list: &Value) -> usize {
    list.get("items")
        .and_then(|items| items.as_array())
        .map_or(0, |items| items.len())
}

impl<R: Wait + Clock> Scenario for Counting<'_, R> {
    fn run(&mut self) -> bool {
        let rt = self.client.rt;
        wait_until(rt, || match self.client.list(self.kind) {
            Some(list) => count(&list) == self.wanted,
            None => false,
        })
    }
}

/// Declares the object `web` of a kind with so many pods, and runs the controllers, with so many workers, until as many objects of another kind
/// are there. Returns whether they came. The error is running out of memory or of passes.
pub fn declare_and_count<R: Threads + Wait + Clock + Sync>(
    scene: &Scene<'_, R>,
    passes: &mut Vec<StorePass>,
    declared: Kind,
    pods: u64,
    workers: usize,
    kind: Kind,
    wanted: usize,
) -> Result<bool, AllocError>
    requires { All (IsNewAt scene.now.environment.now.desk) passes.old.items }
    ensures { All (IsNewAt scene.now.environment.now.desk) passes.new.items }
{
    let mut client = Client::new(scene, passes)?;
    if !is_declared(&mut client, scene.alloc, declared, pods)? {
        return Ok(false);
    }
    let mut counting = Counting {
        client,
        kind,
        wanted,
    };
    run_beside(scene, passes, workers, &Open, &mut counting)
}

/// Declares the object `web` of a kind with so many pods, and returns whether it was created. The error is running out of memory.
fn is_declared<R: Wait + Clock>(
    client: &mut Client<'_, R>,
    alloc: Global,
    kind: Kind,
    pods: u64,
) -> Result<bool, AllocError> {
    let text = with_pods(alloc, "web", pods)?;
    Ok(client.create(kind, text.as_str()).is_some())
}

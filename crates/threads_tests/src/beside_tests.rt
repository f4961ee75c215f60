//! Two workers, one of which waits in its turn until the other has planned one.
ghost use Rattle.std.specs.Prelude.{All};
ghost use Rattle.desk.specs.Desks.{IsNewAt};

use crate::beside::Beside;
use crate::clients::Client;
use crate::environments::Environment;
use crate::objects::with_pods;
use crate::running::run_beside;
use crate::scenes::Scene;
use crate::waiting::Waiting;
use desk::StorePass;
use spec_api::kinds::Kind;
use std::alloc::AllocError;
use std::sync::Wait;
use std::time::Clock;

/// How many workers there are.
const WORKERS: usize = 2;

/// How many passes there are: for four followers, the workers and a client.
const PASSES: usize = 7;

/// How many milliseconds the client waits at most.
const LONGEST_WAIT: u64 = 8000;

/// Declares two ReplicaSets without pods, and returns how many were created.
fn declared<R: Wait + Clock>(
    scene: &Scene<'_, R>,
    passes: &mut Vec<StorePass>,
) -> Result<u64, AllocError>
    requires { All (IsNewAt scene.now.environment.now.desk) passes.old.items }
    ensures { All (IsNewAt scene.now.environment.now.desk) passes.new.items }
{
    let mut count: u64 = 0;
    let mut client = Client::new(scene, passes)?;
    for name in ["one", "two"] {
        let text = with_pods(scene.alloc, name, 0)?;
        if client.create(Kind::ReplicaSet, text.as_str()).is_some() {
            count = count.saturating_add(1);
        }
    }
    Ok(count)
}

#[test]
fn two_workers_get_on_beside_one_another(rt: HostRuntime) -> Result<(), AllocError> {
    let (environment, mut passes) = Environment::open(rt.alloc(), PASSES)?;
    let scene = environment.scene(&rt, rt.alloc());
    let count = declared(&scene, &mut passes)?;
    let gate = Beside::new(&scene, "one", "two")?;
    let mut waiting = Waiting::new(&scene, LONGEST_WAIT);
    let has_ended = run_beside(&scene, &mut passes, WORKERS, &gate, &mut waiting)?;
    assert_eq!(rt; (count, has_ended, gate.has_gone_on()), (2, true, true));
    Ok(())
}

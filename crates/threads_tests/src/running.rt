//! The controllers, run beside a scenario.
ghost use Rattle.std.specs.Prelude.{All};
ghost use Rattle.desk.specs.Desks.{IsNewAt};

use crate::scenarios::Scenario;
use crate::scenes::Scene;
use crate::servers::SharedServer;
use desk::StorePass;
use manager::{Apis, Gate, Signals};
use object_keys::PerKind;
use std::alloc::{AllocError, Global};
use std::sync::Wait;
use std::thread;
use std::thread::Threads;
use std::time::Clock;

/// How many workers there are at most.
const MOST_WORKERS: usize = 64;

/// The controllers of a scene, which no thread runs yet.
#[derive(Drop)]
pub struct SceneControllers<'a, 'g, R, G> {
    rt: &'a R,
    alloc: Global,
    apis: Apis<SharedServer<'a, R>>,
    signals: &'a Signals,
    gate: &'g G,
}

/// Returns how the threads that follow a kind ask, with the last of the passes. The error is that too few are left; then none is taken.
fn followers<'a, R: Wait + Clock>(
    scene: &Scene<'a, R>,
    passes: &mut Vec<StorePass>,
) -> Result<PerKind<SharedServer<'a, R>>, AllocError>
    requires { All (IsNewAt scene.now.environment.now.desk) passes.old.items }
    ensures { All (IsNewAt scene.now.environment.now.desk) passes.new.items }
{
    let Some(taken) = PerKind::taken_from(passes) else {
        return Err(AllocError);
    };
    taken.try_map(|pass| Ok(SharedServer::new(scene, pass)))
}

/// Returns how the threads of controllers with so many workers ask, with the last of the passes. The error is running out of memory or of
/// passes.
fn apis<'a, R: Wait + Clock>(
    scene: &Scene<'a, R>,
    passes: &mut Vec<StorePass>,
    count: usize,
) -> Result<Apis<SharedServer<'a, R>>, AllocError>
    requires { All (IsNewAt scene.now.environment.now.desk) passes.old.items }
    ensures { All (IsNewAt scene.now.environment.now.desk) passes.new.items }
{
    let mut workers = Vec::new(scene.alloc);
    for _ in 0..count {
        workers.push(SharedServer::next(scene, passes)?)?;
    }
    Ok(Apis {
        followers: followers(scene, passes)?,
        workers,
    })
}

impl<'a, 'g, R: Threads + Wait + Clock + Sync, G: Gate + Sync> SceneControllers<'a, 'g, R, G> {
    ghost use Rattle.std.specs.Prelude.{All};
    ghost use Rattle.desk.specs.Desks.{IsNewAt};

    /// Returns the controllers of a scene with so many workers, each of which passes a gate. They ask with the last of the passes. The error
    /// is running out of memory or of passes.
    pub fn new(
        scene: &Scene<'a, R>,
        passes: &mut Vec<StorePass>,
        count: usize,
        gate: &'g G,
    ) -> Result<SceneControllers<'a, 'g, R, G>, AllocError>
        requires { All (IsNewAt scene.now.environment.now.desk) passes.old.items }
        ensures { All (IsNewAt scene.now.environment.now.desk) passes.new.items }
    {
        let apis = apis(scene, passes, count)?;
        Ok(SceneControllers {
            rt: scene.rt,
            alloc: scene.alloc,
            apis,
            signals: scene.signals,
            gate,
        })
    }

    /// Runs the controllers until all threads are to stop, and returns whether they ran.
    fn run(self) -> bool {
        let SceneControllers {
            rt,
            alloc,
            apis,
            signals,
            gate,
        } = self;
        if apis.workers.len() > MOST_WORKERS {
            return false;
        }
        manager::run(rt, alloc, apis, signals, gate).is_ok()
    }
}

/// Runs a scenario, then tells all threads to stop, and returns whether all that the scenario waits for has come.
fn run_to_stop<S: Scenario>(scenario: &mut S, signals: &Signals) -> bool {
    let has_come = scenario.run();
    signals.stop_all();
    has_come
}

/// Runs a scenario while the controllers run in threads of their own, and stops them at its end. Returns whether they ran, and all that the
/// scenario waits for has come.
pub fn run_scenario<R, G, S>(controllers: SceneControllers<'_, '_, R, G>, scenario: &mut S) -> bool
where
    R: Threads + Wait + Clock + Sync,
    G: Gate + Sync,
    S: Scenario,
{
    let (rt, signals) = (controllers.rt, controllers.signals);
    let (ran, has_come) = thread::join(rt, || controllers.run(), || run_to_stop(scenario, signals));
    ran && has_come
}

/// Runs a scenario while controllers with so many workers run, each of which passes a gate, and stops them at its end. Returns what
/// `run_scenario` does. The error is running out of memory or of passes.
pub fn run_beside<R, G, S>(
    scene: &Scene<'_, R>,
    passes: &mut Vec<StorePass>,
    workers: usize,
    gate: &G,
    scenario: &mut S,
) -> Result<bool, AllocError>
where
    R: Threads + Wait + Clock + Sync,
    G: Gate + Sync,
    S: Scenario,
    requires { All (IsNewAt scene.now.environment.now.desk) passes.old.items }
    ensures { All (IsNewAt scene.now.environment.now.desk) passes.new.items }
{
    let controllers = SceneControllers::new(scene, passes, workers, gate)?;
    Ok(run_scenario(controllers, scenario))
}

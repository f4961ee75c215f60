//! A gate at which a worker waits for a client.
use crate::polling::wait_for_count;
use crate::scenes::Scene;
use manager::Gate;
use object_keys::WorkKey;
use spec_client_go::controller::Controller;
use std::alloc::AllocError;
use std::sync::Wait;
use std::sync::atomic::{AtomicU64, Ordering};
use std::time::Clock;
use wakeups::Stop;

/// A gate at which the first turn of a key waits, once it is planned and before its first command, until a client lets it go on. The gate
/// counts how often the key comes. Turns of other keys of ReplicaSets wait there until it has come a second time, and are counted too.
#[derive(Drop)]
pub struct Halting<'a, R> {
    rt: &'a R,
    stop: &'a Stop,
    controller: Controller,
    name: String,
    /// How often the key came.
    comings: AtomicU64,
    /// How many turns of other keys of ReplicaSets came.
    others: AtomicU64,
    /// How many turns of it were planned.
    plans: AtomicU64,
    /// 1 once the first turn may go on.
    released: AtomicU64,
}

impl<'a, R: Clock> Halting<'a, R> {
    /// Returns a gate of a scene to which no key came. The error is running out of memory.
    pub fn new(
        scene: &Scene<'a, R>,
        controller: Controller,
        name: &str,
    ) -> Result<Halting<'a, R>, AllocError> {
        let name = String::from_str(scene.alloc, name)?;
        let signals = scene.signals;
        Ok(Halting {
            rt: scene.rt,
            stop: &signals.stop,
            controller,
            name,
            comings: AtomicU64::new(0),
            others: AtomicU64::new(0),
            plans: AtomicU64::new(0),
            released: AtomicU64::new(0),
        })
    }

    /// Returns whether a key is the one whose first turn waits for the client.
    fn stops(&self, key: &WorkKey) -> bool {
        key.controller == self.controller && key.key.name.as_str() == self.name.as_str()
    }

    /// Waits until a count is as high as wanted, and returns whether it is: false where it was given up, or all threads are to stop.
    fn await_count(&self, count: &AtomicU64, least: u64) -> bool {
        wait_for_count(self.rt, self.stop, count, least)
    }

    /// Waits until the first turn of the key is planned, and returns whether it is.
    pub fn await_plan(&self) -> bool {
        self.await_count(&self.plans, 1)
    }

    /// Waits until a turn of another key of a ReplicaSet has come, and returns whether one has: it waits while the key has come but once.
    pub fn await_other(&self) -> bool {
        self.await_count(&self.others, 1)
    }

    /// Waits until the key has come a second time, and returns whether it has.
    pub fn await_return(&self) -> bool {
        self.await_count(&self.comings, 2)
    }

    /// Returns how often the key came.
    pub fn comings(&self) -> u64 {
        self.comings.load(Ordering::SeqCst)
    }

    /// Lets the first turn of the key go on.
    pub fn release(&self) {
        self.released.store(1, Ordering::SeqCst);
    }
}

impl<R: Wait + Clock> Gate for Halting<'_, R> {
    fn before(&self, key: &WorkKey) {
        if self.stops(key) {
            self.comings.fetch_add(1, Ordering::SeqCst);
        } else if key.controller == Controller::ReplicaSet {
            self.others.fetch_add(1, Ordering::SeqCst);
            let _ = self.await_return();
        }
    }

    fn after(&self, key: &WorkKey) {
        if self.stops(key) && self.plans.fetch_add(1, Ordering::SeqCst) == 0 {
            let _ = self.await_count(&self.released, 1);
        }
    }
}

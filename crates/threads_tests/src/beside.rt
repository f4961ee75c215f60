//! A gate at which one worker waits for another.
use crate::polling::wait_for_count;
use crate::scenes::Scene;
use manager::{Gate, Signals};
use object_keys::WorkKey;
use spec_client_go::controller::Controller;
use std::alloc::AllocError;
use std::sync::Wait;
use std::sync::atomic::{AtomicU64, Ordering};
use std::time::Clock;

/// A gate at which the turn of one ReplicaSet waits until the turn of another one is planned: that takes two workers, each of which goes on
/// while the other one waits. Then all threads are to stop.
#[derive(Drop)]
pub struct Beside<'a, R> {
    rt: &'a R,
    signals: &'a Signals,
    waiting: String,
    other: String,
    /// How many turns of the other one were planned.
    planned: AtomicU64,
    /// 1 once the turn that waits has gone on before its limit.
    gone_on: AtomicU64,
}

/// Returns whether a key is that of a ReplicaSet's turn.
fn is_turn_of(key: &WorkKey, name: &str) -> bool {
    key.controller == Controller::ReplicaSet && key.key.name.as_str() == name
}

impl<'a, R: Clock> Beside<'a, R> {
    /// Returns a gate at which the turn of a ReplicaSet waits until that of another one is planned. The error is running out of memory.
    pub fn new(
        scene: &Scene<'a, R>,
        waiting: &str,
        other: &str,
    ) -> Result<Beside<'a, R>, AllocError> {
        let waiting = String::from_str(scene.alloc, waiting)?;
        let other = String::from_str(scene.alloc, other)?;
        Ok(Beside {
            rt: scene.rt,
            signals: scene.signals,
            waiting,
            other,
            planned: AtomicU64::new(0),
            gone_on: AtomicU64::new(0),
        })
    }

    /// Returns whether the turn that waits has gone on before its limit.
    pub fn has_gone_on(&self) -> bool {
        self.gone_on.load(Ordering::SeqCst) == 1
    }

    /// Waits until the turn of the other one is planned, notes whether it was in time, and tells all threads to stop.
    fn await_other(&self) {
        let signals = self.signals;
        if wait_for_count(self.rt, &signals.stop, &self.planned, 1) {
            self.gone_on.store(1, Ordering::SeqCst);
        }
        signals.stop_all();
    }
}

impl<R: Wait + Clock> Gate for Beside<'_, R> {
    fn before(&self, key: &WorkKey) {
        if is_turn_of(key, self.waiting.as_str()) {
            self.await_other();
        }
    }

    fn after(&self, key: &WorkKey) {
        if is_turn_of(key, self.other.as_str()) {
            self.planned.fetch_add(1, Ordering::SeqCst);
        }
    }
}

//! A scenario in which a set is labelled that is to be updated.
use crate::clients::Client;
use crate::environments::Environment;
use crate::fake_clocks::FakeClock;
use crate::halting::Halting;
use crate::polling::wait_until;
use crate::scenarios::Scenario;
use manager::Signals;
use serde_json::Value;
use spec_api::kinds::Kind;
use std::sync::Wait;
use std::thread;
use std::time::{Clock, Duration};

/// A client labels a set once a turn is planned that updates it, before the update is made, while the clock stands still and watches are
/// paused, so that nobody hears of the label. The clock goes on then, but the board's time does not, as nothing is due. The turn's key stays
/// away until the delay of a first failure is over, which counts from the turn's end, and comes again then. The client resumes the watches, and
/// waits until the set has both the label and so many replicas.
#[derive(Drop)]
pub struct Labelling<'a, 'g, R> {
    pub client: Client<'a, FakeClock<R>>,
    pub gate: &'g Halting<'a, FakeClock<R>>,
    pub environment: &'a Environment,
    /// What tells after how many more turns all threads stop.
    pub signals: &'a Signals,
    pub set: String,
    pub replicas: u64,
}

/// The label, as a merge patch.
const LABEL: &str = "{\"metadata\":{\"labels\":{\"marked\":\"yes\"}}}";

/// How many milliseconds a key waits that failed once.
const DELAY_MILLISECONDS: u64 = 5;

/// How many milliseconds the clock goes on while nothing is due: more than the delay, and less than what lets time pass sleeps.
const IDLE_MILLISECONDS: u64 = 500;

/// How many milliseconds of the machine's clock a key that is not to come is waited for.
const LOOK_MILLISECONDS: u64 = 100;

/// Returns whether a set has the label and so many replicas.
fn is_as_wanted(set: &Value, replicas: u64) -> bool {
    let marked = set
        .pointer("/metadata/labels/marked")
        .and_then(|it| it.as_str());
    let wanted = set.pointer("/spec/replicas").and_then(|it| it.as_u64());
    marked == Some("yes") && wanted == Some(replicas)
}

impl<R: Wait + Clock> Labelling<'_, '_, R> {
    /// Labels the set once the turn is planned and the other worker waits, so that no turn ends but this one, and waits until it has, half a
    /// second later by the clock. Returns whether it has.
    fn fail_turn(&mut self) -> bool {
        if !self.gate.await_plan() || !self.gate.await_other() {
            return false;
        }
        let left = self.signals.turns_left();
        let is_labelled = self
            .client
            .patch(Kind::ReplicaSet, self.set.as_str(), LABEL);
        self.client.rt.step(IDLE_MILLISECONDS);
        self.gate.release();
        is_labelled && wait_until(self.client.rt, || self.signals.turns_left() != left)
    }

    /// Returns whether the key stays away until its delay is over, and comes again then.
    fn comes_after_delay(&self) -> bool {
        let clock = self.client.rt;
        clock.step(DELAY_MILLISECONDS - 1);
        thread::sleep(clock, Duration::from_millis(LOOK_MILLISECONDS));
        let is_away = self.gate.comings() == 1;
        clock.step(1);
        is_away && self.gate.await_return()
    }

    /// Waits until the set has the label and its replicas, and returns whether it does.
    fn await_set(&mut self) -> bool {
        let rt = self.client.rt;
        wait_until(rt, || {
            match self.client.get(Kind::ReplicaSet, self.set.as_str()) {
                Some(set) => is_as_wanted(&set, self.replicas),
                None => false,
            }
        })
    }

    /// Tells all threads to stop, and wakes those that wait for a write: their clock stands still.
    fn stop(&self) {
        self.signals.stop_all();
        self.environment.bell.ring();
    }
}

impl<R: Wait + Clock> Scenario for Labelling<'_, '_, R> {
    fn run(&mut self) -> bool {
        let has_waited = self.fail_turn() && self.comes_after_delay();
        self.environment.resume_watches();
        let has_come = has_waited && self.await_set();
        self.stop();
        has_come
    }
}

//! The environment of a test.
ghost use Rattle.std.specs.Prelude.{◌≡◌, ◌<◌, All, IfOk, length};
ghost use Rattle.desk.specs.Desks.{IsNewAt};

use crate::scenes::Scene;
use desk::{Desk, Readable, StorePass};
use http_client::Answer;
use http_client::statuses::CONFLICT;
use manager::Signals;
use request_parts::Request;
use spec_api::kinds::Kind;
use std::alloc::{AllocError, Global};
use std::sync::atomic::{AtomicU64, Ordering};
use wakeups::Bell;

/// How many of the last changes of each kind the server keeps for its watches.
const WINDOW: usize = 1024;

/// The environment that the controllers of a test run in, as in Kubernetes' `envtest`: a server of the same process, whose watches can be
/// paused and which counts the conflicts that it answers, and what tells the threads to stop.
#[derive(Drop)]
pub struct Environment {
    /// The server, which threads share.
    pub desk: Desk<Readable>,
    /// What tells the threads to stop.
    pub signals: Signals,
    /// Rings at each write.
    pub bell: Bell,
    /// 1 while watches are paused.
    paused: AtomicU64,
    /// 1 while watches of ConfigMaps give no events; 2 once they are lost.
    config_maps: AtomicU64,
    update_conflicts: AtomicU64,
    delete_conflicts: AtomicU64,
}

impl Environment {
    /// Returns an environment whose server has no objects, and so many passes of its desk. The error is running out of memory.
    pub fn open(alloc: Global, count: usize) -> Result<(Environment, Vec<StorePass>), AllocError>
        requires { 0 < count }
        ensures passes { IfOk result (λ r. All (IsNewAt r.0.desk) r.1.items) }
        ensures count { IfOk result (λ r. length r.1.items ≡ count) }
    {
        let (desk, passes) = Desk::<Readable>::open(alloc, WINDOW, count)?;
        let environment = Environment {
            desk,
            signals: Signals::new(None),
            bell: Bell::new(),
            paused: AtomicU64::new(0),
            config_maps: AtomicU64::new(0),
            update_conflicts: AtomicU64::new(0),
            delete_conflicts: AtomicU64::new(0),
        };
        Ok((environment, passes))
    }

    /// Returns the environment as threads borrow it, with its own signals.
    pub fn scene<'a, R>(&'a self, rt: &'a R, alloc: Global) -> Scene<'a, R>
        ensures environment { result.environment.now ≡ self.now }
        ensures signals { result.signals.now ≡ self.now.signals }
    {
        self.scene_with(rt, alloc, &self.signals)
    }

    /// Returns the environment as threads borrow it, with other signals: threads that these stop leave those alone that its own signals stop.
    pub fn scene_with<'a, R>(
        &'a self,
        rt: &'a R,
        alloc: Global,
        signals: &'a Signals,
    ) -> Scene<'a, R>
        ensures environment { result.environment.now ≡ self.now }
        ensures signals { result.signals.now ≡ signals.now }
    {
        Scene {
            rt,
            alloc,
            environment: self,
            signals,
        }
    }

    /// Pauses the watches: they give no events until they are resumed.
    pub fn pause_watches(&self) {
        self.paused.store(1, Ordering::SeqCst);
    }

    /// Resumes the watches, and wakes them.
    pub fn resume_watches(&self) {
        self.paused.store(0, Ordering::SeqCst);
        self.bell.ring();
    }

    /// Returns whether the watches are paused.
    pub fn are_watches_paused(&self) -> bool {
        self.paused.load(Ordering::SeqCst) == 1
    }

    /// Has watches of ConfigMaps give no events.
    pub fn hold_config_maps(&self) {
        self.config_maps.store(1, Ordering::SeqCst);
    }

    /// Cuts the watches of ConfigMaps, and has the next one be refused as expired. Those after it are as ever.
    pub fn lose_config_maps(&self) {
        self.config_maps.store(2, Ordering::SeqCst);
        self.bell.ring();
    }

    /// Returns whether watches of a kind give no events.
    pub fn are_watches_held(&self, kind: Kind) -> bool {
        self.are_watches_paused()
            || kind == Kind::ConfigMap && self.config_maps.load(Ordering::SeqCst) == 1
    }

    /// Returns whether watches of a kind are lost.
    pub fn are_watches_lost(&self, kind: Kind) -> bool {
        kind == Kind::ConfigMap && self.config_maps.load(Ordering::SeqCst) == 2
    }

    /// Returns whether a watch of a kind is refused as expired, once where they are lost.
    pub fn is_expired(&self, kind: Kind) -> bool {
        let is_lost = self.are_watches_lost(kind);
        if is_lost {
            self.config_maps.store(0, Ordering::SeqCst);
        }
        is_lost
    }

    /// Counts the answer to a request, if it is a conflict of an update or of a delete.
    pub fn note(&self, request: &Request, answer: &Answer) {
        if !is_conflict(answer) {
            return;
        }
        match request {
            Request::Update(_, _) => {
                self.update_conflicts.fetch_add(1, Ordering::SeqCst);
            }
            Request::Delete(_, _) => {
                self.delete_conflicts.fetch_add(1, Ordering::SeqCst);
            }
            _ => {}
        }
    }

    /// Returns how many updates were refused since their object had changed.
    pub fn update_conflicts(&self) -> u64 {
        self.update_conflicts.load(Ordering::SeqCst)
    }

    /// Returns how many deletes were refused since their object had changed.
    pub fn delete_conflicts(&self) -> u64 {
        self.delete_conflicts.load(Ordering::SeqCst)
    }
}

/// Returns whether an answer is the refusal of a request whose object had changed.
fn is_conflict(answer: &Answer) -> bool {
    match answer {
        Answer::Replied(reply) => reply.code == CONFLICT,
        Answer::NotSent | Answer::Lost => false,
    }
}

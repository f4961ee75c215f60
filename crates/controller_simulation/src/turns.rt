//! A worker's turn with a key.
ghost use Rattle.std.specs.Prelude.{◌≡◌, false, true, not, [], IfOk, OnOk, OnErr, string_bytes};
ghost use Rattle.object_keys.specs.PerKind.{each_kind, of_kind, with_kind};
ghost use Rattle.controller_simulation.specs.Acting.{HasAsked};
ghost use Rattle.controller_simulation.specs.Turns.{EndsBy, HasLooked, IsNext, has_looked};
ghost use Rattle.controller_simulation.specs.Replayed.{ActsAsNoted};

use crate::asking::asked;
use crate::fates::Fate;
use crate::past::PastRequest;
use crate::playback::{Playback, Reached};
use indexer::Indexed;
use keyed_queues::Named;
use object_keys::PerKind;
use reconciler::{Outcome, Reconciler};
use sim_cluster::Cluster;
use spec_api::kinds::Kind;
use std::alloc::{AllocError, Global};

/// What comes next in a turn.
#[derive(Drop)]
pub enum Next {
    /// This request is to be made.
    Asks(String),
    /// The reconcile ends so.
    Ends(Outcome),
    /// Answered as before, the reconcile asks something else than before.
    Differs,
}

/// A worker's turn with a key: what it has looked at, and what it asked and was answered.
#[derive(Drop)]
pub struct ControllerTurn<K: Named> {
    pub key: K,
    /// What was published of each kind when the worker looked at it; nothing, where it has not yet.
    pub shown: PerKind<Indexed>,
    /// Which kinds it has looked at.
    pub looked: PerKind<bool>,
    /// What the reconcile asked, the first request first.
    pub past: Vec<PastRequest>,
}

/// Returns what comes next, by how far a reconcile came, whether it asked all again that was asked before, and how it ended then.
fn next_by(reached: Reached, is_whole: bool, outcome: Outcome) -> Result<Next, AllocError>
    ensures { IfOk result (IsNext reached is_whole outcome) }
{
    match reached {
        Reached::Repeating => Ok(if is_whole {
            Next::Ends(outcome)
        } else {
            Next::Differs
        }),
        Reached::Asks(line) => Ok(Next::Asks(line)),
        Reached::Differs => Ok(Next::Differs),
        Reached::NoMemory => Err(AllocError),
    }
}

impl<K: Named> ControllerTurn<K> {
    /// Returns a turn that begins: nothing was looked at, and nothing asked. It takes no memory.
    pub fn begun(alloc: Global, key: K) -> ControllerTurn<K>
        ensures key { result.key ≡ key }
        ensures looked { result.looked ≡ each_kind (λ k. false) }
        ensures past { result.past.items ≡ [] }
    {
        ControllerTurn {
            key,
            shown: PerKind {
                config_maps: Indexed::new(alloc),
                pods: Indexed::new(alloc),
                replica_sets: Indexed::new(alloc),
                deployments: Indexed::new(alloc),
            },
            looked: PerKind {
                config_maps: false,
                pods: false,
                replica_sets: false,
                deployments: false,
            },
            past: Vec::new(alloc),
        }
    }

    /// Returns whether each kind was looked at. It takes no memory.
    pub fn has_looked(&self) -> bool
        ensures { result ≡ has_looked self.now.looked }
    {
        self.looked.config_maps
            && self.looked.pods
            && self.looked.replica_sets
            && self.looked.deployments
    }

    /// Takes in what is published of a kind.
    pub fn look(&mut self, kind: Kind, published: Indexed)
        ensures shown { self.new.shown ≡ with_kind kind published self.old.shown }
        ensures looked { self.new.looked ≡ with_kind kind true self.old.looked }
        ensures same { (self.new.key ≡ self.old.key) × (self.new.past.items ≡ self.old.past.items) }
    {
        self.shown.put(kind, published);
        self.looked.put(kind, true);
    }

    /// Runs the reconcile from its beginning, answers it what it was answered so far, and returns what comes next: an end is one that the controller
    /// allows by what was shown, of a run that asked all again that was asked before, and where the controller says what its reconciles ask, it asked that.
    /// The error is running out of memory.
    pub fn next<C: Reconciler<K>>(&self, alloc: Global, controller: &C) -> Result<Next, AllocError>
        ensures ends { IfOk result (EndsBy (C.ends self.now.key self.now.shown)) }
        ensures acts { IfOk result (ActsAsNoted C.says_acts C.acts self.now.key self.now.shown self.now.past.items) }
    {
        let mut api = Playback::new(self.past.as_slice());
        let outcome = controller.reconcile(alloc, &self.key, &self.shown, &mut api);
        let is_whole = api.played == self.past.len();
        next_by(api.reached, is_whole, outcome)
    }

    /// Returns the key. It takes no memory.
    pub fn into_key(self) -> K
        ensures { result ≡ self.key }
    {
        let ControllerTurn { key, .. } = self;
        key
    }

    /// Returns the turn once a kind was looked at, and whether it was not before: what was shown stays.
    pub(crate) fn looked_at(self, kind: Kind, published: Indexed) -> (ControllerTurn<K>, bool)
        ensures looks { result.1 ≡ not (of_kind kind self.looked) }
        ensures shown { result.1 ≡ true → HasLooked kind published self result.0 }
        ensures same { result.1 ≡ false → result.0 ≡ self }
    {
        let mut turn = self;
        if *turn.looked.get(kind) {
            return (turn, false);
        }
        turn.look(kind, published);
        (turn, true)
    }

    /// Asks a line, and adds it with what comes of it. The error is running out of memory, and changes nothing.
    fn ask(
        &mut self,
        alloc: Global,
        cluster: &mut Cluster,
        line: String,
        fate: Fate,
    ) -> Result<(), AllocError>
        ensures asked { OnOk result (HasAsked fate (string_bytes line) cluster.old cluster.new self.old self.new) }
        ensures err { OnErr result (cluster.new ≡ cluster.old) }
    {
        self.past.reserve(1)?;
        let answer = asked(alloc, cluster, line.as_str().as_bytes(), fate)?;
        self.past.push_reserved(PastRequest { line, answer });
        Ok(())
    }

    /// Returns the turn once it asked a line, with what comes of that; or where memory runs out, as it was.
    pub(crate) fn asks(
        self,
        alloc: Global,
        cluster: &mut Cluster,
        line: String,
        fate: Fate,
    ) -> (ControllerTurn<K>, Result<(), AllocError>)
        ensures asked { OnOk result.1 (HasAsked fate (string_bytes line) cluster.old cluster.new self result.0) }
        ensures err { OnErr result.1 (cluster.new ≡ cluster.old) }
    {
        let mut turn = self;
        let asked = turn.ask(alloc, cluster, line, fate);
        (turn, asked)
    }
}

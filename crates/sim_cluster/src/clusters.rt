//! A server with its journal, and what follows each kind of it: its steps, and what holds over all of them.
ghost use Rattle.std.specs.Prelude.{◌≡◌};
ghost use Rattle.spec_sim.specs.Followers.{begun};
ghost use Rattle.object_keys.specs.PerKind.{each_kind};

use crate::stopped::Stopped;
use indexer::Indexed;
use line_session::{JournalEntry, RecordedSession};
use object_keys::PerKind;
use sim_followers::{ClusterOutcome, SimulatedFollower};
use sim_steps::{InitialSync, Move, Step};
use spec_api::kinds::Kind;
use std::alloc::{AllocError, Global};
use std::marker::Model;

/// A server with the journal of all that has happened at it, and what follows each kind of it.
pub struct Cluster {
    pub(crate) recorded: RecordedSession,
    pub(crate) initial: InitialSync,
    pub(crate) followers: PerKind<SimulatedFollower>,
}

impl Drop for Cluster {
    // Called where one is dropped; a derived drop is proved anew at each such place.
    fn drop(self) {
        let Cluster {
            recorded: _recorded,
            initial: _,
            followers: _followers,
        } = self;
    }
}

impl Model for Cluster {
    ghost use Rattle.sim_cluster.specs.ClusterStates.{ClusterState, coded_cluster};
    ghost use Rattle.sim_cluster.specs.Standing.{Stands};

    ghost Value = { ClusterState };

    ghost coded = { coded_cluster };

    ghost view = { λ w. record {
      session = w.recorded.session;
      journal = w.recorded.journal;
      initial = w.initial;
      followers = w.followers;
    } };

    ghost invariant = { λ w. Stands (record {
      session = w.recorded.session;
      journal = w.recorded.journal;
      initial = w.initial;
      followers = w.followers;
    }) };
}

/// Returns followers, one of each kind, that have seen nothing yet, and begin so.
fn new_followers(alloc: Global, initial: InitialSync) -> PerKind<SimulatedFollower>
    ensures { result ≡ each_kind (begun initial) }
{
    PerKind::made(|kind| SimulatedFollower::new(alloc, kind, initial))
}

impl Cluster {
    ghost use Rattle.std.specs.Prelude.{◌≡◌, ◌<◌, IfOk, IfErr, OnOk, OnErr, [], ◌∷◌, length, map, take};
    ghost use Rattle.spec_line_protocol.specs.Lines.{line_of, compact};
    ghost use Rattle.line_session.specs.Entries.{entry_of};
    ghost use Rattle.spec_sim.specs.Moves.{answers_by, move_by};
    ghost use Rattle.sim_followers.specs.Outcomes.{outcome_of};
    ghost use Rattle.sim_steps.specs.Steps.{move_of, step_of};
    ghost use Rattle.sim_cluster.specs.Headline.{ShowsLists, RevisionsRise, ReplacesNamedVersion, ReplacesNamedVersions};
    ghost use Rattle.sim_cluster.specs.ClusterStates.{opened, published, moved_in, answered_line, with_new_followers, follower, step, run};

    /// Returns the opening cluster: nothing is there, the server's windows have this size, and followers begin so, also after a
    /// restart. The error is running out of memory.
    pub fn open(alloc: Global, window: usize, initial: InitialSync) -> Result<Cluster, AllocError>
        ensures { IfOk result (λ w. w ≡ opened window initial) }
    {
        Ok(Cluster {
            recorded: RecordedSession::new(alloc, window)?,
            initial,
            followers: new_followers(alloc, initial),
        })
    }

    /// Returns the journal, which the server itself does not keep: the writes and the compactions, the oldest first. It takes no memory.
    pub fn journal(&self) -> &[JournalEntry]
        ensures { map entry_of result.now ≡ self.now.journal }
    {
        self.recorded.journal()
    }

    /// Returns what follows a kind.
    pub(crate) fn follower(&self, kind: Kind) -> &SimulatedFollower
        ensures { result.now ≡ follower kind self.now }
    {
        self.followers.get(kind)
    }

    /// Returns what is published of a kind: the objects, and the revision at which they are the server's; at first none, and 0.
    pub fn published(&self, kind: Kind) -> &Indexed
        ensures { result.now ≡ published kind self.now }
    {
        self.follower(kind).published()
    }

    /// Answers a line. The error is running out of memory, and changes nothing.
    fn answer(&mut self, alloc: Global, text: &[u8]) -> Result<ClusterOutcome, AllocError>
        ensures after { OnOk result (self.new ≡ (answered_line self.old (line_of text.now)).cluster) }
        ensures outcome { IfOk result (λ o. outcome_of o ≡ (answered_line self.old (line_of text.now)).outcome) }
        ensures err { OnErr result (self.new ≡ self.old) }
    {
        let reply = self.recorded.serve_text(alloc, text)?;
        Ok(ClusterOutcome::Replied(reply))
    }

    /// Compacts up to a revision. The error is running out of memory, and changes nothing.
    fn compact(&mut self, alloc: Global, revision: u64) -> Result<ClusterOutcome, AllocError>
        ensures after { OnOk result (self.new ≡ (answered_line self.old (compact revision)).cluster) }
        ensures outcome { IfOk result (λ o. outcome_of o ≡ (answered_line self.old (compact revision)).outcome) }
        ensures err { OnErr result (self.new ≡ self.old) }
    {
        let reply = self.recorded.compact(alloc, revision)?;
        Ok(ClusterOutcome::Replied(reply))
    }

    /// Moves the follower of a kind. The error is running out of memory, and changes nothing.
    fn moves(
        &mut self,
        alloc: Global,
        kind: Kind,
        movement: Move,
    ) -> Result<ClusterOutcome, AllocError>
        ensures after { OnOk result (self.new ≡ (moved_in kind self.old
            (move_by kind (answers_by kind self.old.session.server) (follower kind self.old) (move_of movement))).cluster) }
        ensures outcome { IfOk result (λ o. outcome_of o
            ≡ (move_by kind (answers_by kind self.old.session.server) (follower kind self.old) (move_of movement)).outcome) }
        ensures err { OnErr result (self.new ≡ self.old) }
    {
        let server = self.recorded.server();
        self.followers.get_mut(kind).make(alloc, server, movement)
    }

    /// Has all followers begin anew.
    fn restart(&mut self, alloc: Global)
        ensures { self.new ≡ with_new_followers self.old.initial self.old.session self.old.journal }
    {
        self.followers = new_followers(alloc, self.initial);
    }

    /// Takes a step, and returns what is told of it. The error is running out of memory, and changes nothing.
    #[tactic(auto, unfolding(crate::specs::ClusterStates::step))]
    fn take(&mut self, alloc: Global, wanted: Step<'_>) -> Result<ClusterOutcome, AllocError>
        ensures after { OnOk result (self.new ≡ (step self.old (step_of wanted.entry)).cluster) }
        ensures outcome { IfOk result (λ o. outcome_of o ≡ (step self.old (step_of wanted.entry)).outcome) }
        ensures err { OnErr result (self.new ≡ self.old) }
    {
        match wanted {
            Step::Request(text) => self.answer(alloc, text),
            Step::Compact(revision) => self.compact(alloc, revision),
            Step::Moves(kind, movement) => self.moves(alloc, kind, movement),
            Step::Restart => {
                self.restart(alloc);
                Ok(ClusterOutcome::Restarted)
            }
        }
    }

    /// Takes a step, and returns what is told of it. The error is running out of memory, and changes nothing.
    ///
    /// Whatever was asked, then each published map is the server's list at the revision published with it; that revision fell by a
    /// restart alone; and a write that names a version replaced just that version (Kubernetes API Conventions, Concurrency Control
    /// and Consistency).
    pub fn step(&mut self, alloc: Global, wanted: Step<'_>) -> Result<ClusterOutcome, AllocError>
        ensures after { OnOk result (self.new ≡ (step self.old (step_of wanted.entry)).cluster) }
        ensures outcome { IfOk result (λ o. outcome_of o ≡ (step self.old (step_of wanted.entry)).outcome) }
        ensures lists { ShowsLists self.new }
        ensures rise { RevisionsRise (step_of wanted.entry ∷ []) self.old self.new }
        ensures replaces { ReplacesNamedVersion (step_of wanted.entry) self.old.journal self.new.journal }
        ensures err { OnErr result (self.new ≡ self.old) }
    {
        // What holds of every cluster is known from here on.
        let _cluster = &self.recorded;
        self.take(alloc, wanted)
    }

    /// Takes one step after another.
    fn take_all(&mut self, alloc: Global, steps: &[Step<'_>]) -> Result<(), Stopped>
        ensures ok { OnOk result (self.new ≡ run self.old (map step_of steps.now)) }
        ensures stopped { IfErr result (λ s. (s.taken < length steps.now) × (self.new ≡ run self.old (map step_of (take s.taken steps.now)))) }
    {
        for (taken, wanted) in steps.iter().enumerate() {
            let Ok(_) = self.take(alloc, *wanted) else {
                return Err(Stopped { taken });
            };
        }
        Ok(())
    }

    /// Takes one step after another. The error says how many were taken before one ran out of memory.
    ///
    /// Whatever was asked, and also where it stopped, then each published map is the server's list at the revision published with it,
    /// that revision fell by a restart alone, and each write that names a version replaced just that version.
    pub fn run(&mut self, alloc: Global, steps: &[Step<'_>]) -> Result<(), Stopped>
        ensures ok { OnOk result (self.new ≡ run self.old (map step_of steps.now)) }
        ensures stopped { IfErr result (λ s. (s.taken < length steps.now) × (self.new ≡ run self.old (map step_of (take s.taken steps.now)))) }
        ensures lists { ShowsLists self.new }
        ensures rise { RevisionsRise (map step_of steps.now) self.old self.new }
        ensures replaces { ReplacesNamedVersions (map step_of steps.now) self.old }
    {
        // What holds of every cluster is known from here on.
        let _cluster = &self.recorded;
        self.take_all(alloc, steps)
    }
}

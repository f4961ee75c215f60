//! Published changes of a cluster that are still to be handled, and what is published while they are.
use crate::clusters::Cluster;
use indexer::Indexed;
use object_keys::PerKind;
use sim_followers::Notification;
use spec_api::kinds::Kind;
use std::alloc::AllocError;

impl Cluster {
    ghost use Rattle.std.specs.Prelude.{◌≡◌, IfOk, drop, option_map, slice_get};
    ghost use Rattle.sim_followers.specs.Notified.{notification_of};
    ghost use Rattle.reconcile_types.specs.Hands.{looks_by};
    ghost use Rattle.spec_server.specs.Snapshots.{Snapshot};
    ghost use Rattle.sim_cluster.specs.Changes.{looks, without_oldest};
    ghost use Rattle.sim_cluster.specs.ClusterStates.{follower};

    /// Returns the oldest of the published changes of a kind that are still to be handled, if one is. It takes no memory.
    pub fn oldest(&self, kind: Kind) -> Option<&Notification>
        ensures { option_map (λ n. notification_of n.now) result ≡ slice_get (follower kind self.now).unhandled 0 }
    {
        self.follower(kind).oldest()
    }

    /// Removes the oldest of the published changes of a kind that are still to be handled, since it was handled. It takes no memory.
    pub fn remove_oldest(&mut self, kind: Kind)
        ensures { self.new ≡ without_oldest kind self.old }
    {
        self.followers.get_mut(kind).remove_oldest();
    }

    /// Returns copies of what is published of each kind, which share the objects. The error is running out of memory.
    pub fn looks(&self) -> Result<PerKind<Indexed>, AllocError>
        ensures { IfOk result (λ l. looks_by (λ (s : Snapshot). s.members) l ≡ looks self.now) }
    {
        PerKind::try_made(|kind| self.published(kind).try_copy())
    }
}

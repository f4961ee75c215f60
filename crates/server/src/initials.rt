//! What is there as a watch begins.
ghost use Rattle.std.specs.Prelude.{◌≡◌, IfOk, map};
ghost use Rattle.spec_api.specs.WatchReplies.{added_events};
ghost use Rattle.meta.specs.Members.{member_of};
ghost use Rattle.revisions.specs.Events.{event_seen};

use crate::servers::Server;
use meta::Member;
use object_keys::Fault;
use revisions::Event;
use selector::View;
use spec_api::frames::ChangeKind;
use std::alloc::{AllocError, Global};
use store::ViewSnapshot;

/// What is there of a view, and the revision at which it is: the initial events of a watch.
#[derive(Drop)]
pub struct InitialEvents {
    /// The objects, in the order of keys.
    pub objects: ViewSnapshot,
    /// The present revision, after which the watch goes on.
    pub revision: u64,
}

/// Returns each object as an event that it was added, at a revision.
fn added_events(
    alloc: Global,
    revision: u64,
    members: &[Member<'_>],
) -> Result<Vec<Event>, AllocError>
    ensures { IfOk result (λ found. map event_seen found.items ≡ added_events revision (map member_of members.now)) }
{
    let mut events = Vec::with_capacity(alloc, members.len())?;
    for member in members {
        events.push(Event {
            kind: ChangeKind::Added,
            revision,
            key: member.key.try_copy()?,
            object: member.object.try_copy()?,
        })?;
    }
    Ok(events)
}

impl InitialEvents {
    ghost use Rattle.std.specs.Prelude.{◌≡◌, IfOk, map};
    ghost use Rattle.server.specs.Initials.{initial_of};
    ghost use Rattle.revisions.specs.Events.{event_seen};

    /// Returns each object as an event that it was added, for who keeps them: the objects' texts are shared. The error is
    /// running out of memory.
    pub fn events(&self, alloc: Global) -> Result<Vec<Event>, AllocError>
        ensures { IfOk result (λ found. map event_seen found.items ≡ (initial_of self.now).events) }
    {
        let members = self.objects.all(alloc)?;
        added_events(alloc, self.revision, &members)
    }
}

impl Server {
    ghost use Rattle.std.specs.Prelude.{◌≡◌, IfOk};
    ghost use Rattle.spec_api.specs.History.{viewed};
    ghost use Rattle.spec_server.specs.Servers.{initial_by};
    ghost use Rattle.selector.specs.Views.{view_of};
    ghost use Rattle.watch_cache.specs.Served.{Serves};
    ghost use Rattle.server.specs.Initials.{initial_of};

    /// Returns what is there of a view, in the order of keys, at the present revision, which may not be older than the one that
    /// is named, if one is. The objects are shared and not looked at, so that it costs little however many there are. The errors
    /// are a revision above the present one, which takes no memory, and running out of memory.
    pub fn initial(
        &self,
        alloc: Global,
        view: &View,
        least: Option<u64>,
    ) -> Result<InitialEvents, Fault>
        ensures events { Serves initial_of (initial_by self.now (view_of view.now) least) result }
        ensures members { IfOk result (λ i. i.objects ≡ viewed (view_of view.now) self.now.snapshot.members) }
        ensures revision { IfOk result (λ i. i.revision ≡ self.now.snapshot.revision) }
    {
        let revision = self.revision();
        if let Some(asked) = least {
            if revision < asked {
                return Err(Fault::TooNew {
                    asked,
                    present: revision,
                });
            }
        }
        let objects = self.store.snapshot(alloc, view)?;
        Ok(InitialEvents { objects, revision })
    }
}

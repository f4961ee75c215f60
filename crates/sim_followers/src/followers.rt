//! What follows one kind.
ghost use Rattle.std.specs.Prelude.{◌≡◌};
ghost use Rattle.reflector.specs.Deltas.{delta_of};
ghost use Rattle.sim_followers.specs.Listed.{listed_count};

use crate::beginnings::{begun, streaming};
use crate::links::Link;
use crate::notifications::{Notification, apply_all};
use crate::outcomes::ClusterOutcome;
use indexer::Indexed;
use meta::Kind;
use object_keys::Fault;
use reflector::{Delta, Fed, Reflector};
use revisions::WatchedEvents;
use selector::View;
use server::Server;
use sim_steps::Move;
use spec_api::versions::At;
use spec_client_go::reflectors::Ask;
use spec_sim::initial_syncs::InitialSync;
use std::alloc::{AllocError, Global};
use std::collections::VecDeque;
use std::marker::Model;

/// A link, where a watch is open; a reflector; what is published, and the deltas that wait to be; the published changes that are
/// still to be handled, the oldest first; and whether the first list was published.
pub struct SimulatedFollower {
    kind: Kind,
    link: Option<Link>,
    reflector: Reflector,
    published: Indexed,
    pending: Vec<Delta>,
    unhandled: VecDeque<Notification>,
    has_listed: bool,
}

impl Drop for SimulatedFollower {
    // Called where one is dropped; a derived drop is proved anew at each such place.
    fn drop(self) {
        let SimulatedFollower {
            kind: _kind,
            link: _link,
            reflector: _reflector,
            published: _published,
            pending: _pending,
            unhandled: _unhandled,
            has_listed: _has_listed,
        } = self;
    }
}

impl Model for SimulatedFollower {
    ghost use Rattle.std.specs.Prelude.{◌≡◌, map};
    ghost use Rattle.reflector.specs.Deltas.{deltas_of};
    ghost use Rattle.spec_sim.specs.Followers as followers;
    ghost use Rattle.spec_sim.specs.Codes.{coded_follower};
    ghost use Rattle.sim_followers.specs.Notified.{notification_of};

    ghost Value = { followers.Follower };

    ghost coded = { coded_follower };

    ghost view = { λ f. record {
      link = f.link;
      reflector = f.reflector;
      informer = record { published = f.published; pending = deltas_of f.pending.items };
      unhandled = map notification_of f.unhandled.items;
      has_listed = f.has_listed;
    } };

    ghost invariant = { λ f. f.reflector.kind ≡ f.kind };
}

impl SimulatedFollower {
    ghost use Rattle.std.specs.Prelude.{◌≡◌, OnOk, OnErr, IfOk, Ok, Some, None, drop, length, option_map, slice_get};
    ghost use Rattle.spec_client_go.specs.Reflectors.{list_of};
    ghost use Rattle.spec_sim.specs.Followers.{begun};
    ghost use Rattle.spec_sim.specs.Moves.{Answers, answers_by, listed_of, list_in, watch_in, stream_in, send_on, bookmark_on, deliver_on, deliver_all_on, cut_on, publish_by, move_by};
    ghost use Rattle.spec_api.specs.History.{unfiltered};
    ghost use Rattle.selector.specs.Views.{view_of};
    ghost use Rattle.sim_followers.specs.Answered.{AnswersLists};
    ghost use Rattle.sim_followers.specs.Notified.{notification_of};
    ghost use Rattle.sim_followers.specs.Outcomes.{outcome_of};
    ghost use Rattle.sim_steps.specs.Steps.{move_of};

    /// Returns what follows a kind and has seen nothing yet, and begins so.
    pub fn new(alloc: Global, kind: Kind, initial: InitialSync) -> SimulatedFollower
        ensures { result ≡ begun initial kind }
    {
        SimulatedFollower {
            kind,
            link: None,
            reflector: begun(alloc, kind, initial),
            published: Indexed::new(alloc),
            pending: Vec::new(alloc),
            unhandled: VecDeque::new(alloc),
            has_listed: false,
        }
    }

    /// Returns what is published: the objects, and the revision at which they are the server's; at first none, and 0.
    pub fn published(&self) -> &Indexed
        ensures { result.now ≡ self.now.informer.published }
    {
        &self.published
    }

    /// Returns whether the first list was published, or the first initial events that were closed.
    pub fn has_listed(&self) -> bool
        ensures { result ≡ self.now.has_listed }
    {
        self.has_listed
    }

    /// Returns the oldest of the published changes that are still to be handled, if one is. It takes no memory.
    pub fn oldest(&self) -> Option<&Notification>
        ensures { option_map (λ n. notification_of n.now) result ≡ slice_get self.now.unhandled 0 }
    {
        self.unhandled.front()
    }

    /// Removes the oldest of the published changes that are still to be handled, since it was handled. It takes no memory.
    pub fn remove_oldest(&mut self)
        ensures { self.new ≡ record self.old { unhandled = drop 1 self.old.unhandled } }
    {
        let _handled = self.unhandled.pop_front();
    }

    /// Returns the view of all objects of the kind.
    fn view(&self, alloc: Global) -> View
        ensures { view_of result ≡ unfiltered self.now.reflector.kind None }
    {
        View::unfiltered(alloc, self.kind, None)
    }

    /// Takes in the present list, where a list is asked for. It asks that what the server answers is read as its list, which holds
    /// of every server whose history can have happened. The error is running out of memory, and changes nothing.
    pub fn list(&mut self, alloc: Global, server: &Server) -> Result<ClusterOutcome, AllocError>
        requires { AnswersLists self.old.reflector.kind server.now }
        ensures after { OnOk result (self.new
            ≡ (list_in self.old.reflector.kind self.old.reflector.phase (answers_by self.old.reflector.kind server.now) self.old).follower) }
        ensures outcome { IfOk result (λ o. outcome_of o
            ≡ (list_in self.old.reflector.kind self.old.reflector.phase (answers_by self.old.reflector.kind server.now) self.old).outcome) }
        ensures err { OnErr result (self.new ≡ self.old) }
    {
        if self.reflector.next() != Ask::List {
            return Ok(ClusterOutcome::NoStep);
        }
        let view = self.view(alloc);
        // The present list is refused for memory alone.
        let Ok(reply) = server.list(alloc, &view, At::Present, 0, None) else {
            return Err(AllocError);
        };
        let mut reflector = self.reflector.try_copy()?;
        let Ok(delta) = reflector.on_list(alloc, reply.text.as_bytes()) else {
            return Err(AllocError);
        };
        let count = listed_count(&delta);
        self.pending.push(delta)?;
        self.reflector = reflector;
        self.link = None;
        Ok(ClusterOutcome::Listed(self.kind, self.reflector.revision(), count))
    }

    /// Opens a watch, where one is asked for and no link is open; where it is refused, what is there is asked for again. The error
    /// is running out of memory, and changes nothing.
    pub fn watch(&mut self, alloc: Global, server: &Server) -> Result<ClusterOutcome, AllocError>
        ensures after { OnOk result (self.new
            ≡ (watch_in self.old.reflector.kind self.old.reflector.phase self.old.link (answers_by self.old.reflector.kind server.now) self.old).follower) }
        ensures outcome { IfOk result (λ o. outcome_of o
            ≡ (watch_in self.old.reflector.kind self.old.reflector.phase self.old.link (answers_by self.old.reflector.kind server.now) self.old).outcome) }
        ensures err { OnErr result (self.new ≡ self.old) }
    {
        let Ask::Watch(revision) = self.reflector.next() else {
            return Ok(ClusterOutcome::NoStep);
        };
        if self.link.is_some() {
            return Ok(ClusterOutcome::NoStep);
        }
        let view = self.view(alloc);
        match server.watch_from(alloc, &view, revision, 0) {
            Ok(_) => {
                self.link = Some(Link::opened_at(alloc, revision));
                Ok(ClusterOutcome::Opened(self.kind, revision))
            }
            Err(Fault::NoMemory) => Err(AllocError),
            Err(_) => {
                self.reflector.on_expired();
                Ok(ClusterOutcome::Expired(self.kind))
            }
        }
    }

    /// Opens a watch that begins with all that is there, where one is asked for and no link is open. The error is running out of
    /// memory, and changes nothing.
    pub fn stream(&mut self, alloc: Global, server: &Server) -> Result<ClusterOutcome, AllocError>
        ensures after { OnOk result (self.new
            ≡ (stream_in self.old.reflector.kind self.old.reflector.phase self.old.link (answers_by self.old.reflector.kind server.now) self.old).follower) }
        ensures outcome { IfOk result (λ o. outcome_of o
            ≡ (stream_in self.old.reflector.kind self.old.reflector.phase self.old.link (answers_by self.old.reflector.kind server.now) self.old).outcome) }
        ensures err { OnErr result (self.new ≡ self.old) }
    {
        if self.reflector.next() != Ask::Stream {
            return Ok(ClusterOutcome::NoStep);
        }
        if self.link.is_some() {
            return Ok(ClusterOutcome::NoStep);
        }
        let view = self.view(alloc);
        let link = streaming(alloc, server, &view)?;
        let revision = link.stands();
        self.link = Some(link);
        Ok(ClusterOutcome::Streaming(self.kind, revision))
    }

    /// Has the server write the next initial lines, or else the next changes, at most so many, where a link is open. The error is
    /// running out of memory, and changes nothing.
    pub fn send(
        &mut self,
        alloc: Global,
        server: &Server,
        most: usize,
    ) -> Result<ClusterOutcome, AllocError>
        ensures after { OnOk result (self.new
            ≡ (send_on self.old.reflector.kind self.old.link most (answers_by self.old.reflector.kind server.now) self.old).follower) }
        ensures outcome { IfOk result (λ o. outcome_of o
            ≡ (send_on self.old.reflector.kind self.old.link most (answers_by self.old.reflector.kind server.now) self.old).outcome) }
        ensures err { OnErr result (self.new ≡ self.old) }
    {
        let view = self.view(alloc);
        let kind = self.kind;
        let Some(link) = &mut self.link else {
            return Ok(ClusterOutcome::NoStep);
        };
        if link.is_refused() {
            return Ok(ClusterOutcome::NoStep);
        }
        if link.is_opening() {
            let count = link.write_initial(alloc, kind, most)?;
            return Ok(ClusterOutcome::Sent(kind, count));
        }
        match server.watch_from(alloc, &view, link.stands(), most) {
            Ok(WatchedEvents { events, stands }) => {
                link.write_changes(alloc, kind, events.as_slice(), stands)?;
                Ok(ClusterOutcome::Sent(kind, events.len() as u64))
            }
            Err(Fault::NoMemory) => Err(AllocError),
            Err(fault) => {
                link.write_refusal(alloc, &fault)?;
                Ok(ClusterOutcome::Sent(kind, 1))
            }
        }
    }

    /// Has the server write a bookmark at the present revision, where a link is open and neither an initial line nor a change is
    /// left to send. The error is running out of memory, and changes nothing.
    pub fn send_bookmark(
        &mut self,
        alloc: Global,
        server: &Server,
    ) -> Result<ClusterOutcome, AllocError>
        ensures after { OnOk result (self.new
            ≡ (bookmark_on self.old.reflector.kind self.old.link (answers_by self.old.reflector.kind server.now) self.old).follower) }
        ensures outcome { IfOk result (λ o. outcome_of o
            ≡ (bookmark_on self.old.reflector.kind self.old.link (answers_by self.old.reflector.kind server.now) self.old).outcome) }
        ensures err { OnErr result (self.new ≡ self.old) }
    {
        let view = self.view(alloc);
        let kind = self.kind;
        let present = server.revision();
        let Some(link) = &mut self.link else {
            return Ok(ClusterOutcome::NoStep);
        };
        if link.is_refused() || link.is_opening() {
            return Ok(ClusterOutcome::NoStep);
        }
        match server.watch_from(alloc, &view, link.stands(), 0) {
            Ok(watched) => {
                if watched.stands != present {
                    return Ok(ClusterOutcome::NoStep);
                }
                link.write_bookmark(alloc, kind, present)?;
                Ok(ClusterOutcome::Sent(kind, 1))
            }
            Err(Fault::NoMemory) => Err(AllocError),
            Err(fault) => {
                link.write_refusal(alloc, &fault)?;
                Ok(ClusterOutcome::Sent(kind, 1))
            }
        }
    }

    /// Delivers the next bytes, at most so many, where a link is open. The error is running out of memory, and changes nothing.
    pub fn deliver(&mut self, alloc: Global, most: usize) -> Result<ClusterOutcome, AllocError>
        ensures after { OnOk result (self.new ≡ (deliver_on self.old.reflector.kind self.old.link most self.old).follower) }
        ensures outcome { IfOk result (λ o. outcome_of o ≡ (deliver_on self.old.reflector.kind self.old.link most self.old).outcome) }
        ensures err { OnErr result (self.new ≡ self.old) }
    {
        let Some(link) = &mut self.link else {
            return Ok(ClusterOutcome::NoStep);
        };
        let mut reflector = self.reflector.try_copy()?;
        let Ok(Fed { deltas, end }) = reflector.feed(alloc, link.next_bytes(most)) else {
            return Err(AllocError);
        };
        let mut deltas = deltas;
        self.pending.append(&mut deltas)?;
        link.pass(most);
        self.reflector = reflector;
        if end.is_some() {
            self.link = None;
        }
        Ok(ClusterOutcome::Fed(self.kind, self.reflector.revision(), end))
    }

    /// Delivers all bytes that were written, where a link is open. The error is running out of memory, and changes nothing.
    pub fn deliver_all(&mut self, alloc: Global) -> Result<ClusterOutcome, AllocError>
        ensures after { OnOk result (self.new ≡ (deliver_all_on self.old.reflector.kind self.old.link self.old).follower) }
        ensures outcome { IfOk result (λ o. outcome_of o ≡ (deliver_all_on self.old.reflector.kind self.old.link self.old).outcome) }
        ensures err { OnErr result (self.new ≡ self.old) }
    {
        let most = match &self.link {
            Some(link) => link.unread(),
            None => 0,
        };
        self.deliver(alloc, most)
    }

    /// Makes a move, by what a server answers, whose list is to be read as `list` asks. The error is running out of memory, and
    /// changes nothing.
    pub fn make(
        &mut self,
        alloc: Global,
        server: &Server,
        movement: Move,
    ) -> Result<ClusterOutcome, AllocError>
        requires { AnswersLists self.old.reflector.kind server.now }
        ensures after { OnOk result (self.new
            ≡ (move_by self.old.reflector.kind (answers_by self.old.reflector.kind server.now) self.old (move_of movement)).follower) }
        ensures outcome { IfOk result (λ o. outcome_of o
            ≡ (move_by self.old.reflector.kind (answers_by self.old.reflector.kind server.now) self.old (move_of movement)).outcome) }
        ensures err { OnErr result (self.new ≡ self.old) }
    {
        match movement {
            Move::List => self.list(alloc, server),
            Move::Watch => self.watch(alloc, server),
            Move::Stream => self.stream(alloc, server),
            Move::Send(most) => self.send(alloc, server, most as usize),
            Move::SendBookmark => self.send_bookmark(alloc, server),
            Move::Deliver(most) => self.deliver(alloc, most as usize),
            Move::DeliverAll => self.deliver_all(alloc),
            Move::Cut => Ok(self.cut()),
            Move::Publish => self.publish(alloc),
        }
    }

    /// Cuts the link, where one is open: what was not read is lost.
    pub fn cut(&mut self) -> ClusterOutcome
        ensures after { self.new ≡ (cut_on self.old.reflector.kind self.old.link self.old).follower }
        ensures outcome { outcome_of result ≡ (cut_on self.old.reflector.kind self.old.link self.old).outcome }
    {
        if self.link.is_none() {
            return ClusterOutcome::NoStep;
        }
        self.link = None;
        self.reflector.on_cut();
        ClusterOutcome::Cut(self.kind, self.reflector.revision())
    }

    /// Publishes what waits, once a list or closed initial events were taken in. The error is running out of memory, and changes nothing.
    pub fn publish(&mut self, alloc: Global) -> Result<ClusterOutcome, AllocError>
        ensures after { OnOk result (self.new ≡ (publish_by self.old.reflector.kind self.old).follower) }
        ensures outcome { IfOk result (λ o. outcome_of o ≡ (publish_by self.old.reflector.kind self.old).outcome) }
        ensures err { OnErr result (self.new ≡ self.old) }
    {
        if self.reflector.revision() == 0 {
            return Ok(ClusterOutcome::NoStep);
        }
        let applied = apply_all(
            alloc,
            &self.published,
            self.pending.as_slice(),
            self.has_listed,
        )?;
        let mut notified = VecDeque::from_vec(applied.notifications);
        self.unhandled.append(&mut notified)?;
        self.published = applied.objects;
        self.pending.clear();
        self.has_listed = true;
        let count = self.published.len() as u64;
        Ok(ClusterOutcome::Published(self.kind, self.published.revision(), count))
    }
}

/// Returns how many objects a list has that is taken in.
fn listed_count(delta: &Delta) -> u64
    ensures { result ≡ listed_count (delta_of delta.now) }
{
    match delta {
        Delta::Replace(_, objects) => objects.len() as u64,
        _ => 0,
    }
}

//! A copy of the objects of one kind: what is to be asked next, what is taken in of the answers, and what is published.
use framing::Want;
use indexer::{Indexed, Shift};
use plain_informer::Publishing;
use reflector::{Fed, ListFault, Reflector};
use spec_api::kinds::Kind;
use spec_client_go::reflectors::{Ask, End};
use std::alloc::{AllocError, Global};
use std::marker::Model;

/// A copy of the objects of one kind in an informer, of all or of those that the server is asked for, with what is to be asked next to keep
/// it up to date.
#[derive(Drop)]
pub struct Follower<I: Publishing> {
    reflector: Reflector,
    informer: I,
}

impl<I: Publishing> Model for Follower<I> {
    ghost use Rattle.list_and_watch.specs.Followers as followers;
    ghost use Rattle.list_and_watch.specs.Codes.{coded_follower};

    ghost Value = { followers.Follower };

    ghost coded = { coded_follower };

    ghost view = { λ f. record { reflector = f.reflector; informer = I.informer_of f.informer } };
}

impl<I: Publishing> Follower<I> {
    ghost use Rattle.std.specs.Prelude.{◌≡◌, IfOk, IfErr, IsSome, OnOk, OnErr, map, option_map};
    ghost use Rattle.spec_client_go.specs.Reflectors.{asks, fed, list_of};
    ghost use Rattle.indexer.specs.Shifted.{shift_of};
    ghost use Rattle.reflector.specs.Deltas.{RefusesList};
    ghost use Rattle.plain_informer.specs.Appended.{has_list};
    ghost use Rattle.list_and_watch.specs.Followers.{begun_over, begun_streaming_over, after_list, after_bytes, after_cut, after_expiry, after_refusal, published, changes_of};

    /// Returns a follower of a kind that took nothing in yet, over an informer: it asks for a list.
    pub fn new(alloc: Global, kind: Kind, informer: I) -> Follower<I>
        ensures { result ≡ begun_over kind (I.informer_of informer) }
    {
        Follower {
            reflector: Reflector::new(alloc, kind),
            informer,
        }
    }

    /// Returns a follower of a kind that took nothing in yet, over an informer: it asks for a stream of initial events in place of a list.
    pub fn streaming(alloc: Global, kind: Kind, informer: I) -> Follower<I>
        ensures { result ≡ begun_streaming_over kind (I.informer_of informer) }
    {
        Follower {
            reflector: Reflector::streaming(alloc, kind),
            informer,
        }
    }

    /// Returns the informer.
    pub fn into_informer(self) -> I
        ensures { I.informer_of result ≡ self.informer }
    {
        self.informer
    }

    /// Returns what is to be asked of the server next. It takes no memory.
    pub fn next(&self) -> Ask
        ensures { result ≡ asks self.now.reflector }
    {
        self.reflector.next()
    }

    /// Takes in the body of a list, which waits to be published. The error is that the body is no list of the kind, or running out of
    /// memory; it changes nothing.
    pub fn on_listed(&mut self, alloc: Global, body: &[u8]) -> Result<(), ListFault>
        ensures ok { OnOk result (self.new ≡ after_list (list_of self.old.reflector.kind body.now) self.old) }
        ensures listed { OnOk result (IsSome (list_of self.old.reflector.kind body.now)) }
        ensures refused { IfErr result (RefusesList self.old.reflector.kind body.now) }
        ensures err { OnErr result (self.new ≡ self.old) }
    {
        let Ok(mut reflector) = self.reflector.try_copy() else {
            return Err(ListFault::Want);
        };
        let delta = reflector.on_list(alloc, body)?;
        match self.informer.append(delta) {
            Ok(()) => {
                self.reflector = reflector;
                Ok(())
            }
            Err(_) => Err(ListFault::Want),
        }
    }

    /// Takes in the next bytes of a watch, in any pieces, and returns why the watch is over, if it is. What they say waits to be
    /// published. The error is running out of memory, and changes nothing: the same bytes can be taken in again.
    pub fn on_bytes(&mut self, alloc: Global, bytes: &[u8]) -> Result<Option<End>, Want>
        ensures ok { OnOk result (self.new ≡ after_bytes bytes.now self.old) }
        ensures end { IfOk result (λ end. end ≡ (fed self.old.reflector bytes.now).ended) }
        ensures err { OnErr result (self.new ≡ self.old) }
    {
        let mut reflector = self.reflector.try_copy()?;
        let Fed { deltas, end } = reflector.feed(alloc, bytes)?;
        self.informer.append_all(deltas)?;
        self.reflector = reflector;
        Ok(end)
    }

    /// Takes in that a watch is cut, or has ended: the next watch begins where this one stopped. It takes no memory.
    pub fn on_cut(&mut self)
        ensures { self.new ≡ after_cut self.old }
    {
        self.reflector.on_cut();
    }

    /// Takes in that the server no longer has the events that were asked for: a list is asked for. It takes no memory.
    pub fn on_expired(&mut self)
        ensures { self.new ≡ after_expiry self.old }
    {
        self.reflector.on_expired();
    }

    /// Takes in that the server refuses a stream of initial events: a list is asked for, until one is taken in. It takes no memory.
    pub fn on_refused(&mut self)
        ensures { self.new ≡ after_refusal self.old }
    {
        self.reflector.on_refused();
    }

    /// Returns whether a whole list is among what waits to be published. It takes no memory.
    pub fn has_list(&self) -> bool
        ensures { result ≡ has_list self.now.informer.pending }
    {
        self.informer.has_list()
    }

    /// Publishes all that waits, and returns what that changes, in order; none where nothing waits, as before the first list. The error
    /// is running out of memory, and changes nothing.
    #[tactic(auto, using(crate::proofs::Steps::none_changes, crate::proofs::Steps::some_change))]
    pub fn publish(&mut self) -> Result<Option<Vec<Shift>>, AllocError>
        ensures ok { OnOk result (self.new ≡ published self.old) }
        ensures changes { IfOk result (λ found. option_map (λ v. map shift_of v.items) found ≡ changes_of self.old.informer) }
        ensures err { OnErr result (self.new ≡ self.old) }
    {
        if self.informer.waiting() == 0 {
            return Ok(None);
        }
        let shifts = self.informer.publish()?;
        Ok(Some(shifts))
    }

    /// Returns a reference to what is published.
    pub fn look(&self) -> &Indexed
        ensures { result.now ≡ self.now.informer.published }
    {
        self.informer.published()
    }
}

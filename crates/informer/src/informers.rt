//! An informer whose map is read without waiting.
use crate::copies::Copies;
use crate::listers::Lister;
use core::mem::replace_with;
use indexer::{Indexed, Shift};
use reflector::Delta;
use std::alloc::{AllocError, Global};
use std::sync::Wait;

/// A map that is published, and the deltas that wait to be. It is not dropped: end it by `close`.
pub struct Informer {
    pub(crate) copies: Copies,
}

impl Informer {
    ghost use Rattle.std.specs.Prelude.{◌≡◌, ◌^◌, ◌<◌, [], ◌∷◌, ◌++◌, IfOk, IfErr, OnOk, OnErr, length, map};
    ghost use Rattle.spec_client_go.specs.Informers.{begun, appended, after_publish};
    ghost use Rattle.spec_client_go.specs.Shifts.{all_shifts};
    ghost use Rattle.indexer.specs.Shifted.{shift_of};
    ghost use Rattle.plain_informer.specs.Appended.{all_appended, has_list};
    ghost use Rattle.reflector.specs.Deltas.{delta_of, deltas_of};
    ghost use Rattle.informer.specs.Informers.{informer_of, published_batches, published_deltas, pending_deltas, IsSame};
    ghost use Rattle.informer.specs.Listers.{known_last};
    ghost use Rattle.informer.specs.Published.{with_batch};

    /// Returns an informer that has published nothing yet, an empty map at revision 0, with room for so many listers. The
    /// error is running out of memory.
    pub fn open(alloc: Global, listers: usize) -> Result<Informer, AllocError>
        requires { (0 < listers) × (listers < 2 ^ 32) }
        ensures begun { IfOk result (λ i. informer_of i ≡ begun) }
        ensures batches { IfOk result (λ i. published_batches i ≡ []) }
    {
        Ok(Informer {
            copies: Copies::open(alloc, listers)?,
        })
    }

    /// Returns a lister that was told of all that is published. The error is that there is no room for one more, or running
    /// out of memory.
    pub fn lister(&mut self) -> Result<Lister, AllocError>
        ensures same { IsSame self.old self.new }
        ensures told { IfOk result (λ l. known_last l ≡ published_batches self.old) }
    {
        Ok(Lister {
            reader: self.copies.reader()?,
        })
    }

    /// Appends a delta, which waits for the next publish. The error is running out of memory: it has the delta, and nothing
    /// else changes.
    pub fn append(&mut self, delta: Delta) -> Result<(), Delta>
        ensures ok { OnOk result (informer_of self.new ≡ appended (informer_of self.old) (delta_of delta)) }
        ensures waits { OnOk result (pending_deltas self.new ≡ pending_deltas self.old ++ delta ∷ []) }
        ensures batches { published_batches self.new ≡ published_batches self.old }
        ensures err { OnErr result (IsSame self.old self.new) }
        ensures returned { IfErr result (λ d. d ≡ delta) }
    {
        self.copies.append(delta)
    }

    /// Appends deltas, which wait for the next publish. The error is running out of memory, and changes nothing.
    pub fn append_all(&mut self, deltas: Vec<Delta>) -> Result<(), AllocError>
        ensures ok { OnOk result (informer_of self.new ≡ all_appended (informer_of self.old) (deltas_of deltas.items)) }
        ensures waits { OnOk result (pending_deltas self.new ≡ pending_deltas self.old ++ deltas.items) }
        ensures batches { published_batches self.new ≡ published_batches self.old }
        ensures err { OnErr result (IsSame self.old self.new) }
    {
        self.copies.append_all(deltas)
    }

    /// Returns how many deltas wait for the next publish. It takes no memory.
    pub fn waiting(&self) -> usize
        ensures { result ≡ length (informer_of self.now).pending }
    {
        self.copies.waiting()
    }

    /// Returns whether a whole list is among the deltas that wait for the next publish. It takes no memory.
    pub fn has_list(&self) -> bool
        ensures { result ≡ has_list (informer_of self.now).pending }
    {
        self.copies.has_list()
    }

    /// Publishes the deltas that wait, all of them at once, and returns what they change, delta by delta. It costs what they cost; where
    /// there are more than one, also a copy of the map. It waits for looks at the map that was published before the present one,
    /// and for none where no delta waits. The error is running out of memory: none is published, and all wait.
    #[tactic(auto, using(crate::proofs::Keeps::all_with))]
    pub fn publish<R: Wait>(&mut self, rt: &R) -> Result<Vec<Shift>, AllocError>
        ensures ok { OnOk result (informer_of self.new ≡ after_publish (informer_of self.old)) }
        ensures shifts { IfOk result (λ v. map shift_of v.items ≡ all_shifts (informer_of self.old).published.members (informer_of self.old).pending) }
        ensures batches { OnOk result (published_batches self.new ≡ with_batch (published_batches self.old) (pending_deltas self.old)) }
        ensures deltas { OnOk result (published_deltas self.new ≡ published_deltas self.old ++ pending_deltas self.old) }
        ensures err { OnErr result (IsSame self.old self.new) }
    {
        replace_with(&mut self.copies, rt, |copies, rt| copies.publish(rt))
    }

    /// Returns a reference to the published map. It takes no memory.
    pub fn published(&self) -> &Indexed
        ensures { result.now ≡ (informer_of self.now).published }
    {
        self.copies.published()
    }

    /// Ends it, once all looks have ended: from then on listers get none. What waits is dropped.
    pub fn close<R: Wait>(self, rt: &R) {
        let Informer { copies } = self;
        copies.close(rt);
    }
}

//! An informer with the runtime by which it waits.
use crate::informers::Informer;
use crate::listers::Lister;
use indexer::{Indexed, Shift};
use plain_informer::Publishing;
use reflector::Delta;
use std::alloc::{AllocError, Global};
use std::sync::Wait;

/// An informer whose map is read without waiting, where it is to be published with no word of a runtime. Dropping it closes it,
/// once all looks have ended.
pub struct SharedInformer<'a, R: Wait> {
    runtime: &'a R,
    informer: Informer,
}

impl<'a, R: Wait> SharedInformer<'a, R> {
    ghost use Rattle.std.specs.Prelude.{◌≡◌, ◌<◌, ◌^◌, IfOk};
    ghost use Rattle.informer.specs.Informers.{published_batches, IsNew, IsSame};
    ghost use Rattle.informer.specs.Listers.{known_last};
    ghost use Rattle.informer.specs.Shared.{inner};

    /// Returns an informer, with the runtime by which its publishes wait.
    pub fn new(runtime: &'a R, informer: Informer) -> SharedInformer<'a, R>
        ensures { inner result ≡ informer }
    {
        SharedInformer { runtime, informer }
    }

    /// Returns an informer that has published nothing yet, with room for so many listers, and with the runtime by which its publishes
    /// wait. The error is running out of memory.
    pub fn open(
        runtime: &'a R,
        alloc: Global,
        listers: usize,
    ) -> Result<SharedInformer<'a, R>, AllocError>
        requires { (0 < listers) × (listers < 2 ^ 32) }
        ensures { IfOk result (λ shared. IsNew (inner shared)) }
    {
        Ok(SharedInformer::new(runtime, Informer::open(alloc, listers)?))
    }

    /// Returns a reference to the informer. It takes no memory.
    pub fn informer(&self) -> &Informer
        ensures { result.now ≡ inner self.now }
    {
        &self.informer
    }

    /// Returns a lister that was told of all that is published. The error is that there is no room for one more, or running
    /// out of memory.
    pub fn lister(&mut self) -> Result<Lister, AllocError>
        ensures same { IsSame (inner self.old) (inner self.new) }
        ensures told { IfOk result (λ l. known_last l ≡ published_batches (inner self.old)) }
    {
        self.informer.lister()
    }

    /// Returns the informer, which is then to be closed by its own call.
    pub fn into_informer(self) -> Informer
        ensures { result ≡ inner self.entry }
    {
        let SharedInformer {
            runtime: _,
            informer,
        } = self;
        informer
    }
}

impl<'a, R: Wait> Publishing for SharedInformer<'a, R> {
    ghost use Rattle.informer.specs.Informers as informers;
    ghost use Rattle.informer.specs.Shared.{inner};

    ghost informer_of = { λ s. informers.informer_of (inner s) };

    fn append(&mut self, delta: Delta) -> Result<(), AllocError> {
        match self.informer.append(delta) {
            Ok(()) => Ok(()),
            Err(_) => Err(AllocError),
        }
    }

    fn append_all(&mut self, deltas: Vec<Delta>) -> Result<(), AllocError> {
        self.informer.append_all(deltas)
    }

    fn waiting(&self) -> usize {
        self.informer.waiting()
    }

    fn has_list(&self) -> bool {
        self.informer.has_list()
    }

    fn publish(&mut self) -> Result<Vec<Shift>, AllocError> {
        self.informer.publish(self.runtime)
    }

    fn published(&self) -> &Indexed {
        self.informer.published()
    }
}

impl<R: Wait> Drop for SharedInformer<'_, R> {
    fn drop(self) {
        let SharedInformer { runtime, informer } = self;
        informer.close(runtime);
    }
}

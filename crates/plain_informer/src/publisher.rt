//! What publishes a map: a map that others look at, and the deltas that wait to be published.
ghost use Rattle.std.specs.Prelude.{◌≡◌, IfOk, OnOk, OnErr, length, map};
ghost use Rattle.spec_client_go.specs.Informers.{Informer, appended, after_publish};
ghost use Rattle.spec_client_go.specs.Shifts.{all_shifts};
ghost use Rattle.indexer.specs.Shifted.{shift_of};
ghost use Rattle.plain_informer.specs.Appended.{all_appended, is_list, has_list};
ghost use Rattle.reflector.specs.Deltas.{delta_of, deltas_of};

use crate::plain::PlainInformer;
use indexer::{Indexed, Shift};
use reflector::Delta;
use std::alloc::AllocError;

/// Returns whether a delta puts a whole list in the place of all that was there.
pub fn is_list(delta: &Delta) -> bool
    ensures { result ≡ is_list (delta_of delta.now) }
{
    match delta {
        Delta::Replace(_, _) => true,
        Delta::Put(_) | Delta::Remove(_, _) | Delta::Mark(_) => false,
    }
}

/// Returns whether a whole list is among deltas.
pub(crate) fn has_list(deltas: &[Delta]) -> bool
    ensures { result ≡ has_list (deltas_of deltas.now) }
{
    for delta in deltas {
        if is_list(delta) {
            return true;
        }
    }
    false
}

/// A map of objects that is published, and the deltas that wait to be.
pub trait Publishing {
    /// What is published, and what waits.
    ghost informer_of: { Self → Informer };

    /// Appends a delta, which waits for the next publish. The error is running out of memory, and changes nothing.
    fn append(&mut self, delta: Delta) -> Result<(), AllocError>
        ensures ok { OnOk result (informer_of self.new ≡ appended (informer_of self.old) (delta_of delta)) }
        ensures err { OnErr result (informer_of self.new ≡ informer_of self.old) };

    /// Appends deltas, which wait for the next publish. The error is running out of memory, and changes nothing.
    fn append_all(&mut self, deltas: Vec<Delta>) -> Result<(), AllocError>
        ensures ok { OnOk result (informer_of self.new ≡ all_appended (informer_of self.old) (deltas_of deltas.items)) }
        ensures err { OnErr result (informer_of self.new ≡ informer_of self.old) };

    /// Returns how many deltas wait for the next publish.
    fn waiting(&self) -> usize
        ensures { result ≡ length (informer_of self.now).pending };

    /// Returns whether a whole list is among the deltas that wait for the next publish. It takes no memory.
    fn has_list(&self) -> bool
        ensures { result ≡ has_list (informer_of self.now).pending };

    /// Publishes the deltas that wait, all of them, and returns what they change, delta by delta. The error is running out of
    /// memory: none is published, and all wait.
    fn publish(&mut self) -> Result<Vec<Shift>, AllocError>
        ensures ok { OnOk result (informer_of self.new ≡ after_publish (informer_of self.old)) }
        ensures shifts { IfOk result (λ v. map shift_of v.items ≡ all_shifts (informer_of self.old).published.members (informer_of self.old).pending) }
        ensures err { OnErr result (informer_of self.new ≡ informer_of self.old) };

    /// Returns a reference to the published map.
    fn published(&self) -> &Indexed
        ensures { result.now ≡ (informer_of self.now).published };
}

impl Publishing for PlainInformer {
    ghost informer_of = { λ i. i };

    fn append(&mut self, delta: Delta) -> Result<(), AllocError> {
        match self.append(delta) {
            Ok(()) => Ok(()),
            Err(_) => Err(AllocError),
        }
    }

    fn append_all(&mut self, deltas: Vec<Delta>) -> Result<(), AllocError> {
        self.append_all(deltas)
    }

    fn waiting(&self) -> usize {
        self.waiting()
    }

    fn has_list(&self) -> bool {
        self.has_list()
    }

    fn publish(&mut self) -> Result<Vec<Shift>, AllocError> {
        self.publish()
    }

    fn published(&self) -> &Indexed {
        self.look()
    }
}

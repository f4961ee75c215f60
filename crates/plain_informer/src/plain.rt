//! An informer with one map.
use crate::publisher::has_list;
use crate::publishing::publish_all;
use indexer::{Indexed, Shift};
use reflector::Delta;
use std::alloc::{AllocError, AllocFailed, Global};
use std::marker::Model;

/// A map that is published, and the deltas that wait to be.
#[derive(Drop)]
pub struct PlainInformer {
    map: Indexed,
    waiting: Vec<Delta>,
    alloc: Global,
}

impl Model for PlainInformer {
    ghost use Rattle.spec_client_go.specs.Informers.{Informer};
    ghost use Rattle.spec_client_go.specs.InformerCodes.{coded_informer};
    ghost use Rattle.reflector.specs.Deltas.{deltas_of};

    ghost Value = { Informer };

    ghost coded = { coded_informer };

    ghost view = { λ i. record { published = i.map; pending = deltas_of i.waiting.items } };
}

impl PlainInformer {
    ghost use Rattle.std.specs.Prelude.{◌≡◌, IfOk, IfErr, OnOk, OnErr, length, map};
    ghost use Rattle.spec_client_go.specs.Informers.{begun, appended, after_publish};
    ghost use Rattle.spec_client_go.specs.Shifts.{all_shifts};
    ghost use Rattle.reflector.specs.Deltas.{delta_of, deltas_of};
    ghost use Rattle.indexer.specs.Shifted.{shift_of};
    ghost use Rattle.plain_informer.specs.Appended.{all_appended, has_list};

    /// Returns an informer that has published nothing yet: an empty map at revision 0.
    pub fn new(alloc: Global) -> PlainInformer
        ensures { result ≡ begun }
    {
        PlainInformer {
            map: Indexed::new(alloc),
            waiting: Vec::new(alloc),
            alloc,
        }
    }

    /// Appends a delta, which waits for the next publish. The error is running out of memory: it has the delta, and nothing
    /// else changes.
    pub fn append(&mut self, delta: Delta) -> Result<(), AllocFailed<Delta>>
        ensures ok { OnOk result (self.new ≡ appended self.old (delta_of delta)) }
        ensures err { OnErr result (self.new ≡ self.old) }
        ensures returned { IfErr result (λ e. e.value ≡ delta) }
    {
        self.waiting.push(delta)
    }

    /// Appends deltas, which wait for the next publish. The error is running out of memory, and changes nothing.
    pub fn append_all(&mut self, deltas: Vec<Delta>) -> Result<(), AllocError>
        ensures ok { OnOk result (self.new ≡ all_appended self.old (deltas_of deltas.items)) }
        ensures err { OnErr result (self.new ≡ self.old) }
    {
        let mut more = deltas;
        self.waiting.append(&mut more)
    }

    /// Returns how many deltas wait for the next publish. It takes no memory.
    pub fn waiting(&self) -> usize
        ensures { result ≡ length self.now.pending }
    {
        self.waiting.len()
    }

    /// Returns whether a whole list is among the deltas that wait for the next publish. It takes no memory.
    pub fn has_list(&self) -> bool
        ensures { result ≡ has_list self.now.pending }
    {
        has_list(self.waiting.as_slice())
    }

    /// Publishes the deltas that wait, all of them, and returns what they change, delta by delta. The error is running out of
    /// memory: none is published, and all wait.
    pub fn publish(&mut self) -> Result<Vec<Shift>, AllocError>
        ensures ok { OnOk result (self.new ≡ after_publish self.old) }
        ensures shifts { IfOk result (λ v. map shift_of v.items ≡ all_shifts self.old.published.members self.old.pending) }
        ensures err { OnErr result (self.new ≡ self.old) }
    {
        let shifts = publish_all(self.alloc, &mut self.map, self.waiting.as_slice())?;
        self.waiting.clear();
        Ok(shifts)
    }

    /// Returns a reference to the published map. It takes no memory.
    pub fn look(&self) -> &Indexed
        ensures { result.now ≡ self.now.published }
    {
        &self.map
    }
}

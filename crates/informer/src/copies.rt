//! Two copies of the map, under the rule.
ghost use Rattle.std.specs.Prelude.{◌≡◌, ◌≤◌, length, drop, take};
ghost use Rattle.std.proofs.Props.{props};
ghost use Rattle.std.specs.Coded.{coded_list};
ghost use Rattle.left_right.specs.Sides.{view};
ghost use Rattle.spec_client_go.specs.InformerCodes.{coded_delta};
ghost use Rattle.spec_server.specs.Codes.{coded_snapshot};
ghost use Rattle.reflector.specs.Deltas.{deltas_of};
ghost use Rattle.informer.specs.Knowing.{latest};
ghost use Rattle.informer.specs.Published.{IsAfter};
ghost use Rattle.informer.specs.SharedDeltas.{all_in};

use crate::changes::changes_of;
use crate::published::Published;
use crate::rules::{Batch, BatchRule, Learns, Publishes, Tells};
use crate::shared_deltas;
use crate::shared_deltas::SharedDelta;
use crate::views::MapView;
use indexer::{Indexed, Shift};
use left_right::reader::Reader;
use left_right::writer::Writer;
use reflector::Delta;
use std::alloc::{AllocError, Global};
use std::marker::Brand;
use std::sync::{Arc, Wait};

/// A reader of the map.
pub type MapReader = Reader<Published, MapView, BatchRule>;

/// Two copies of a map, and the deltas that wait to be published. Readers take one copy, while deltas are applied to the other.
pub struct Copies {
    pub(crate) writer: Writer<Published, SharedDelta, MapView, BatchRule>,
    pub(crate) waiting: Vec<SharedDelta>,
    /// So many of those that wait are in the writer's log: none, but after a publish that ran out of memory.
    logged: usize,
    alloc: Global,
    ghost after: { IsAfter (latest (view writer.desk.place)) writer.desk.shown.value } by { Prim.hlevel (props, coded_snapshot) },
    ghost in_log: { deltas_of (all_in (drop writer.behind writer.log.items)) ≡ deltas_of (take logged (all_in waiting.items)) } by { Prim.hlevel (props, coded_list, coded_delta) },
    ghost some: { logged ≤ length (all_in waiting.items) },
}

impl Copies {
    ghost use Rattle.std.specs.Prelude.{◌^◌, ◌+◌, ◌<◌, [], ◌∷◌, ◌++◌, IfOk, IfErr, OnOk, OnErr, map};
    ghost use Rattle.spec_client_go.specs.Informers.{nothing};
    ghost use Rattle.spec_client_go.specs.Shifts.{all_shifts};
    ghost use Rattle.indexer.specs.Shifted.{shift_of};
    ghost use Rattle.plain_informer.specs.Appended.{has_list};
    ghost use Rattle.informer.specs.Copies.{shown, batches_shown, deltas_waiting, IsSame, IsPublished};

    /// Returns two copies of an empty map, with room for so many readers. The error is running out of memory.
    pub fn open(alloc: Global, readers: usize) -> Result<Copies, AllocError>
        requires { (0 < readers) × (readers < 2 ^ 32) }
        ensures { IfOk result (λ c. (shown c ≡ nothing) × (batches_shown c ≡ []) × (deltas_waiting c ≡ [])) }
    {
        let writer = Writer::new(alloc, Published::new(alloc), Published::new(alloc), readers)?;
        Ok(Copies {
            writer,
            waiting: Vec::new(alloc),
            logged: 0,
            alloc,
        })
    }

    /// Returns a reader that knows all that was published until now. The error is that there is no room for one more, or that
    /// memory runs out.
    pub fn reader(&mut self) -> Result<MapReader, AllocError>
        ensures same { IsSame self.old self.new }
        ensures knows { IfOk result (λ r. latest (view r.place) ≡ batches_shown self.old) }
    {
        let mut reader = self.writer.factory().reader()?;
        reader.learn::<Learns>(self.writer.tell::<Tells>());
        Ok(reader)
    }

    /// Appends a delta, which waits for the next publish. At an error it comes back.
    pub fn append(&mut self, delta: Delta) -> Result<(), Delta>
        ensures shown { (shown self.new ≡ shown self.old) × (batches_shown self.new ≡ batches_shown self.old) }
        ensures ok { OnOk result (deltas_waiting self.new ≡ deltas_waiting self.old ++ delta ∷ []) }
        ensures err { OnErr result (deltas_waiting self.new ≡ deltas_waiting self.old) }
        ensures returned { IfErr result (λ d. d ≡ delta) }
    {
        shared_deltas::push(self.alloc, &mut self.waiting, delta)
    }

    /// Appends deltas, which wait for the next publish. The error is running out of memory, and changes nothing.
    pub fn append_all(&mut self, deltas: Vec<Delta>) -> Result<(), AllocError>
        ensures shown { (shown self.new ≡ shown self.old) × (batches_shown self.new ≡ batches_shown self.old) }
        ensures ok { OnOk result (deltas_waiting self.new ≡ deltas_waiting self.old ++ deltas.items) }
        ensures err { OnErr result (deltas_waiting self.new ≡ deltas_waiting self.old) }
    {
        shared_deltas::append(self.alloc, &mut self.waiting, deltas)
    }

    /// Returns how many deltas wait. It takes no memory.
    pub fn waiting(&self) -> usize
        ensures { result ≡ length (deltas_waiting self.now) }
    {
        self.waiting.len()
    }

    /// Returns whether a whole list is among the deltas that wait. It takes no memory.
    pub fn has_list(&self) -> bool
        ensures { result ≡ has_list (deltas_of (deltas_waiting self.now)) }
    {
        shared_deltas::has_list(self.waiting.as_slice())
    }

    /// Writes the first delta that is not in the log into it. The error is running out of memory, and changes nothing.
    fn log_next(&mut self) -> Result<(), AllocError>
        requires { self.old.logged < length (deltas_waiting self.old) }
        ensures same { IsSame self.old self.new }
        ensures waiting { self.new.waiting ≡ self.old.waiting }
        ensures ok { OnOk result (self.new.logged ≡ self.old.logged + 1) }
    {
        let next = Arc::try_clone(&self.waiting[self.logged])?;
        match self.writer.append(next) {
            Ok(()) => {
                self.logged += 1;
                Ok(())
            }
            Err(_) => Err(AllocError),
        }
    }

    /// Writes all deltas that wait into the log. The error is running out of memory: some may be there.
    fn log_all(&mut self) -> Result<(), AllocError>
        ensures same { IsSame self.old self.new }
        ensures ok { OnOk result (self.new.logged ≡ length (deltas_waiting self.new)) }
    {
        for _turn in self.logged..self.waiting.len() {
            self.log_next()?;
        }
        Ok(())
    }

    /// Returns what the deltas that wait change, and writes them into the log. The error is running out of memory: they all wait.
    fn prepare(&mut self) -> Result<Vec<Shift>, AllocError>
        ensures same { IsSame self.old self.new }
        ensures shifts { IfOk result (λ v. map shift_of v.items ≡ all_shifts (shown self.old).members (deltas_of (deltas_waiting self.old))) }
        ensures ok { OnOk result (self.new.logged ≡ length (deltas_waiting self.new)) }
    {
        let shifts = changes_of(self.alloc, self.published(), self.waiting.as_slice())?;
        self.log_all()?;
        Ok(shifts)
    }

    /// Publishes the deltas that wait, all of them, and returns what they change, delta by delta. Where none waits, nothing
    /// happens. It waits for readers that still look at the map before the last one. The error is running out of memory: none is
    /// published, and all wait.
    pub fn publish<R: Wait>(self, rt: &R) -> (Copies, Result<Vec<Shift>, AllocError>)
        ensures ok { OnOk result.1 (IsPublished self result.0) }
        ensures shifts { IfOk result.1 (λ v. map shift_of v.items ≡ all_shifts (shown self).members (deltas_of (deltas_waiting self))) }
        ensures err { OnErr result.1 (IsSame self result.0) }
    {
        let mut copies = self;
        if copies.waiting.is_empty() {
            let none = Vec::new(copies.alloc);
            return (copies, Ok(none));
        }
        match copies.prepare() {
            Ok(shifts) => copies.publish_prepared(rt, shifts),
            Err(err) => (copies, Err(err)),
        }
    }

    /// Publishes the deltas that wait, all of which are in the log, and returns the shifts that it is given.
    fn publish_prepared<R: Wait>(
        self,
        rt: &R,
        shifts: Vec<Shift>,
    ) -> (Copies, Result<Vec<Shift>, AllocError>)
        requires some { 0 < length (deltas_waiting self) }
        requires logged { self.logged ≡ length (deltas_waiting self) }
        ensures ok { OnOk result.1 (IsPublished self result.0) }
        ensures shifts { IfOk result.1 (λ v. v ≡ shifts) }
        ensures err { OnErr result.1 (IsSame self result.0) }
    {
        let (copies, published) = self.publish_batch::<Brand, R>(rt);
        match published {
            Ok(()) => (copies, Ok(shifts)),
            Err(err) => (copies, Err(err)),
        }
    }

    /// Publishes a batch, which is all that waits, and is in the log.
    fn publish_batch<M: Batch, R: Wait>(self, rt: &R) -> (Copies, Result<(), AllocError>)
        requires some { 0 < length (deltas_waiting self) }
        requires batch { M.deltas ≡ deltas_waiting self }
        requires logged { self.logged ≡ length (deltas_waiting self) }
        ensures ok { OnOk result.1 (IsPublished self result.0) }
        ensures err { OnErr result.1 (IsSame self result.0) }
    {
        let Copies {
            writer,
            mut waiting,
            logged,
            alloc,
        } = self;
        let (writer, published) = writer.publish_as::<Publishes<M>, R>(rt);
        match published {
            Ok(()) => {
                waiting.clear();
                let copies = Copies {
                    writer,
                    waiting,
                    logged: 0,
                    alloc,
                };
                (copies, Ok(()))
            }
            Err(err) => {
                let copies = Copies {
                    writer,
                    waiting,
                    logged,
                    alloc,
                };
                (copies, Err(err))
            }
        }
    }

    /// Returns the map that readers see.
    pub fn published(&self) -> &Indexed
        ensures { result.now ≡ shown self.now }
    {
        &self.writer.published().indexed
    }

    /// Ends it, once all readers have left. What waits is dropped.
    pub fn close<R: Wait>(self, rt: &R) {
        let Copies {
            writer,
            waiting: _waiting,
            logged: _,
            alloc: _,
        } = self;
        drop(writer.take(rt));
    }
}

//! Published changes, handled.
ghost use Rattle.std.specs.Prelude.{◌≡◌, ◌++◌, List, IfOk, map};
ghost use Rattle.indexer.specs.Shifted.{shift_of};
ghost use Rattle.shared_keyed_board.specs.Passes.{IsPassAt};
ghost use Rattle.reconciler.specs.Owing.{AreOwed};
ghost use Rattle.reconciler.specs.Unchanged.{all_unchanged};
ghost use Rattle.informer.specs.Looked.{AreKnown};
ghost use Rattle.controller_runtime.specs.Handled.{all_given, AreGiven, is_other};

use crate::under_way::UnderWay;
use indexer::{Indexed, Shift};
use informer::Listers;
use keyed_queues::Named;
use list_and_watch::{Cause, Onward, Sink, shows_other_server};
use object_keys::PerKind;
use reconciler::owing::joined;
use reconciler::{Reconciler, owed, owed_again};
use shared_keyed_board::{BoardPass, SharedKeyedBoard};
use std::alloc::{AllocError, Global};
use std::sync::Wait;

/// What handles the changes that an informer publishes: each key that they owe is added to the board. Where they are another server's, the run is
/// over.
#[derive(Drop)]
pub(crate) struct ChangeHandler<'a, R, C, K: Named> {
    pub(crate) rt: &'a R,
    pub(crate) alloc: Global,
    pub(crate) controller: &'a C,
    pub(crate) board: &'a SharedKeyedBoard<K>,
    pub(crate) pass: BoardPass<K>,
    pub(crate) under_way: &'a UnderWay<'a>,
    pub(crate) listers: Listers,
    /// The revision that was published last.
    pub(crate) revision: u64,
    ghost sits: { IsPassAt board.now pass },
}

/// Returns what listers show. The error is running out of memory, or that an informer is closed.
fn look(listers: &mut Listers) -> Result<PerKind<Indexed>, AllocError>
    ensures { IfOk result (λ shown. AreKnown listers.new.listers shown) }
{
    match listers.all_published()? {
        Some(shown) => Ok(shown),
        None => Err(AllocError),
    }
}

/// Returns keys, and then those that all objects owe which are shown. The error is running out of memory.
fn with_all<K: Named, C: Reconciler<K>>(
    alloc: Global,
    controller: &C,
    keys: Vec<K>,
    shown: &PerKind<Indexed>,
) -> Result<Vec<K>, AllocError>
    ensures { IfOk result (λ all. (more : List K) × AreOwed (C.owes shown.now) (all_unchanged shown.now) more × (all.items ≡ keys.items ++ more)) }
{
    let more = owed_again(alloc, controller, shown)?;
    joined(keys, more)
}

/// Returns the keys that the changes of a publish owe by what is shown, and after a list that is not the first those too that all objects owe which
/// are shown. The error is running out of memory.
fn owed_of<K: Named, C: Reconciler<K>>(
    alloc: Global,
    controller: &C,
    changes: &[Shift],
    cause: Cause,
    shown: &PerKind<Indexed>,
) -> Result<Vec<K>, AllocError>
    ensures { IfOk result (λ keys. AreOwed (C.owes shown.now) (all_given cause shown.now (map shift_of changes.now)) keys.items) }
{
    let keys = owed(alloc, controller, changes, shown)?;
    match cause {
        Cause::LaterList => with_all(alloc, controller, keys, shown),
        Cause::FirstList | Cause::Changes => Ok(keys),
    }
}

/// Returns the keys that are to be added of a publish, by what listers show: they look once for all its changes. The error is running out of memory, or
/// that an informer is closed.
fn given<K: Named, C: Reconciler<K>>(
    alloc: Global,
    controller: &C,
    listers: &mut Listers,
    changes: &[Shift],
    cause: Cause,
) -> Result<Vec<K>, AllocError>
    ensures { IfOk result (λ keys. AreGiven C.owes cause listers.new.listers (map shift_of changes.now) keys.items) }
{
    let shown = look(listers)?;
    owed_of(alloc, controller, changes, cause, &shown)
}

impl<'a, R, K: Named, C> ChangeHandler<'a, R, C, K> {
    /// Returns what handles the changes of a kind of which nothing was published yet.
    pub(crate) fn new(
        rt: &'a R,
        alloc: Global,
        controller: &'a C,
        board: &'a SharedKeyedBoard<K>,
        pass: BoardPass<K>,
        under_way: &'a UnderWay<'a>,
        listers: Listers,
    ) -> ChangeHandler<'a, R, C, K>
        requires { IsPassAt board.now pass }
        ensures board { result.board.now ≡ board.entry.now }
        ensures pass { result.pass ≡ pass }
        ensures revision { result.revision ≡ 0 }
    {
        ChangeHandler {
            rt,
            alloc,
            controller,
            board,
            pass,
            under_way,
            listers,
            revision: 0,
        }
    }

    /// Returns the pass.
    pub(crate) fn into_pass(self) -> BoardPass<K>
        ensures { result ≡ self.entry.pass }
    {
        self.pass
    }

    /// Returns whether what is published is another server's: it is older than what was published before, or its changes show so.
    fn is_other(&self, changes: &[Shift], objects: &Indexed) -> bool
        ensures { result ≡ is_other self.now.revision objects.now (map shift_of changes.now) }
    {
        objects.revision() < self.revision || shows_other_server(changes)
    }
}

impl<R: Wait, K: Named, C: Reconciler<K>> Sink for ChangeHandler<'_, R, C, K> {
    ghost use Rattle.shared_keyed_board.specs.Passes.{sight, key_in_hand};
    ghost use Rattle.controller_runtime.specs.Handled.{Takes};
    ghost use Rattle.controller_runtime.specs.Told.{Refuses};
    ghost use Rattle.controller_runtime.specs.Runs.{OnlyAddsOwed};

    ghost takes = { λ before changes objects cause after.
        Takes K.order K.says C.owes cause before.revision changes objects after.listers.listers (sight K.says before.pass) (sight K.says after.pass) after.revision };

    ghost refuses = { λ before changes objects cause after.
        Refuses before.revision changes objects (sight K.says before.pass) (sight K.says after.pass) after.revision };

    ghost answers = { λ before onward after. after ≡ before };

    ghost hears = { λ before after. after ≡ before };

    ghost stays = { λ first after.
        (after.board.now ≡ first.board.now)
        × (key_in_hand K.says after.pass ≡ key_in_hand K.says first.pass)
        × OnlyAddsOwed C.owes K.says (sight K.says first.pass) (sight K.says after.pass) };

    /// Adds the keys that the changes of a publish owe, and after a list that is not the first those too that all objects owe which are shown, in one step. Where memory runs out none is added. Where the changes are another
    /// server's, none is, and the run is over.
    fn changed(
        &mut self,
        shifts: &[Shift],
        objects: &Indexed,
        cause: Cause,
    ) -> Result<(), AllocError> {
        if self.is_other(shifts, objects) {
            self.under_way.note_lost();
            return Ok(());
        }
        let keys = given(
            self.alloc,
            self.controller,
            &mut self.listers,
            shifts,
            cause,
        )?;
        self.board
            .add_all(self.rt, &mut self.pass, keys.as_slice())?;
        self.revision = objects.revision();
        if cause == Cause::FirstList {
            self.under_way.note_listed();
        }
        Ok(())
    }

    /// All that was queued is of a server that is there no more: so the run is over.
    fn other_server(&mut self) {
        self.under_way.note_lost();
    }

    fn goes_on(&mut self) -> Onward {
        match self.under_way.check() {
            Ok(()) => Onward::GoOn,
            Err(_) => Onward::Stop,
        }
    }
}
